//! Whole steps of a changed lock. Each is a step of the lock itself, on words that were altered.

ghost use Rattle.std.specs.Prelude.{◌≡◌, ◌<◌, ◌≤◌, None, [], length};
ghost use Rattle.lk_why.specs.Types.{Waits};
ghost use Rattle.lk_why.specs.Altered.{finding, flag_of, leaving_out, own, sight, unwritten};
ghost use Rattle.lk_why.specs.Altered.{waiting, word_or_0};
ghost use Rattle.lk_why.specs.Makes.{Leaves};
ghost use Rattle.lk_why.specs.Steps.{made, unchanged};
ghost use Rattle.lk_why.specs.invariants.Ready.{AreWords, IsReady, IsValue};

use crate::made::{MOST, Made, copy_of, with_word, word_at};
use crate::{Found, Written};
use arrayvec::ArrayVec;
use lk_locks::{LockKind, Machine, Move, Outcome, Phase, Shape, operation_of};
use lk_words::{Operation, WordArray, Words};

// The thread stays in its phase, and waits.
fn waits(words: &[u64], phase: Phase) -> Made
    requires { length words.now ≤ 9 }
    ensures words { result.words.items ≡ words.now }
    ensures phase { result.phase ≡ phase }
    ensures half { result.half ≡ None }
    ensures outcome { result.outcome ≡ Waits }
    ensures entries { result.entries.items ≡ [] }
{
    Made {
        words: copy_of(words),
        phase,
        half: None,
        outcome: Outcome::Waits,
        entries: ArrayVec::new(),
    }
}

/// A step of the lock itself, of thread `t` from this phase on these words.
pub fn step_on(shape: Shape, t: u8, words: &[u64], phase: Phase) -> Made
    requires thread { t < shape.threads }
    requires words { AreWords shape words.now }
    requires phase { IsReady shape phase }
    ensures { Leaves (unchanged shape.kind shape.bits words.now t phase) result }
{
    let mut board = Machine::at_start(shape);
    let mut phases = [Phase::Idle; MOST];
    phases[t as usize] = phase;
    board.restore(words, &phases[..shape.threads() as usize]);
    match board.next_step(t) {
        None => waits(words, phase),
        Some(due) => match board.play(t, Move::Step(due)) {
            Ok((outcome, added)) => Made {
                words: copy_of(board.words().as_slice()),
                phase: board.phase(t),
                half: None,
                outcome,
                entries: added.entries(t),
            },
            Err(_) => waits(words, phase),
        },
    }
}

/// The word of an operation, or word 0 if there is none.
pub fn word_or_0(operation: Option<Operation>) -> usize
    ensures { result ≡ word_or_0 operation }
{
    match operation {
        Some(operation) => operation.word(),
        None => 0,
    }
}

// The flag of a read-write lock.
fn flag_of(kind: LockKind) -> usize
    ensures { result ≡ flag_of kind }
{
    match kind {
        LockKind::RwFifo => 2,
        _ => 1,
    }
}

// The number that is a thread's own in this phase: its ticket, or the number of its record.
fn own(t: u8, phase: Phase) -> u64
    ensures { result ≡ own t phase }
{
    match phase {
        Phase::AwaitTurn(ticket) | Phase::ReadServing(ticket) => ticket,
        _ => t as u64 + 1,
    }
}

// The words `after`, but some as they were before.
fn unwritten(kind: LockKind, written: Written, before: &[u64], after: &[u64]) -> ArrayVec<u64, 9>
    requires before { length before.now ≤ 9 }
    requires after { length after.now ≤ 9 }
    ensures { result.items ≡ unwritten kind written before.now after.now }
{
    let flag = flag_of(kind);
    match written {
        Written::All => copy_of(before),
        Written::Flag => with_word(after, flag, word_at(before, flag)),
        Written::Counts => with_word(before, flag, word_at(after, flag)),
    }
}

/// The step, with some words left as they were.
pub fn leaving_out(shape: Shape, t: u8, words: &[u64], phase: Phase, written: Written) -> Made
    requires thread { t < shape.threads }
    requires words { AreWords shape words.now }
    requires phase { IsReady shape phase }
    ensures { Leaves (made
        (leaving_out written shape.kind shape.bits words.now t phase)) result }
{
    let mut made = step_on(shape, t, words, phase);
    made.words = unwritten(shape.kind(), written, words, made.words.as_slice());
    made
}

/// The word that a test looks at, and the value that it is to find there.
pub fn sight(shape: Shape, t: u8, words: &[u64], phase: Phase, found: Found) -> (usize, u64)
    requires thread { t < shape.threads }
    requires words { AreWords shape words.now }
    requires phase { IsReady shape phase }
    ensures sight { result ≡ sight found shape.kind shape.bits words.now t phase }
    ensures value { IsValue shape result.1 }
{
    let kind = shape.kind();
    let own_word = word_or_0(operation_of(kind, shape.bits(), t, phase));
    match (found, kind) {
        (Found::Zero, _) => (own_word, 0),
        (Found::Own, _) => (own_word, own(t, phase)),
        (Found::ClearFlag, _) => (flag_of(kind), 0),
        (Found::NoReader, LockKind::RwFifo) => (0, word_at(words, 1)),
        (Found::NoReader, _) => (0, 0),
    }
}

/// The step as if it had found this value in this word.
pub fn finding(shape: Shape, t: u8, words: &[u64], phase: Phase, seen: (usize, u64)) -> Made
    requires thread { t < shape.threads }
    requires words { AreWords shape words.now }
    requires phase { IsReady shape phase }
    requires value { IsValue shape seen.1 }
    ensures { Leaves (made
        (finding seen shape.kind shape.bits words.now t phase)) result }
{
    let (word, value) = seen;
    let mut made = step_on(shape, t, with_word(words, word, value).as_slice(), phase);
    if word_at(made.words.as_slice(), word) == value {
        made.words = with_word(made.words.as_slice(), word, word_at(words, word));
    }
    made
}

/// A step that would move on waits instead, and writes nothing.
pub fn waiting(shape: Shape, t: u8, words: &[u64], phase: Phase) -> Made
    requires thread { t < shape.threads }
    requires words { AreWords shape words.now }
    requires phase { IsReady shape phase }
    ensures { Leaves (made
        (waiting shape.kind shape.bits words.now t phase)) result }
{
    let made = step_on(shape, t, words, phase);
    match made.outcome {
        Outcome::Moved => waits(words, phase),
        _ => made,
    }
}
