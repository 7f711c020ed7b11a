//! The words of a lock of at most four threads, and what a step leaves. An MCS lock of four threads
//! has nine words.

ghost use Rattle.std.specs.Prelude.{◌≡◌, ◌≤◌, length, set, slice_index};

use arrayvec::ArrayVec;
use lk_locks::{Entry, Outcome, Phase};

/// Most threads that a changed lock has.
pub const MOST: usize = 4;

/// The result of a step.
#[derive(Drop)]
pub struct Made {
    pub words: ArrayVec<u64, 9>,
    pub phase: Phase,
    /// The value that was loaded, if half of the step is still to come.
    pub half: Option<u64>,
    pub outcome: Outcome,
    /// The entries that the step adds to the history.
    pub entries: ArrayVec<Entry, 3>,
}

/// Word `i`, or 0 past the end.
pub fn word_at(words: &[u64], i: usize) -> u64
    ensures { result ≡ slice_index words.now i }
{
    words.get(i).copied().unwrap_or(0)
}

/// A copy of the words.
pub fn copy_of(words: &[u64]) -> ArrayVec<u64, 9>
    requires { length words.now ≤ 9 }
    ensures { result.items ≡ words.now }
{
    let mut copy = ArrayVec::new();
    let _fits = copy.try_extend_from_slice(words);
    copy
}

/// The words, with this value in word `i`.
pub fn with_word(words: &[u64], i: usize, value: u64) -> ArrayVec<u64, 9>
    requires { length words.now ≤ 9 }
    ensures { result.items ≡ set words.now i value }
{
    let mut copy = copy_of(words);
    if let Some(word) = copy.get_mut(i) {
        *word = value;
    }
    copy
}
