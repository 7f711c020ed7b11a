//! A line of a sketch: a line of a trace in which parts are open. `*` is any thread, and what
//! follows the move may be left out, the name of the word too.

ghost use Rattle.std.specs.Prelude.{◌≡◌};
ghost use Rattle.lk_trace.specs.Open.{doer_of, as_move_of, filled_line, filled_line_on};

use crate::line::{MOST_OF_A_LINE, first_word, move_with};
use crate::{Due, TraceLine, WordName};
use lk_lines::number_of;

/// Whose move a line of a sketch is.
#[derive(Clone, Copy, PartialEq, Eq, Debug)]
pub enum Doer {
    Any,
    One(u8),
}

/// Whose move a line of a sketch is.
#[tactic(auto, unfolding(crate::specs::Open::doer_of))]
pub fn doer_of(line: &[u8]) -> Option<Doer>
    ensures { result ≡ doer_of line.now }
{
    let (first, _) = first_word(Some(line))?;
    if first == b"*".as_slice() {
        return Some(Doer::Any);
    }
    let thread = number_of(first, 0, 255)?;
    Some(Doer::One(thread))
}

// The part after the thread, as a move of this one, on this word if the line does not name it.
fn filled(line: &[u8], thread: u8, on: Option<WordName>) -> Option<TraceLine>
    ensures { result ≡ as_move_of thread on line.now }
{
    if line.len() > MOST_OF_A_LINE {
        return None;
    }
    let (_, text) = first_word(Some(line))?;
    move_with((text, Due::OpenMove), thread, on).ok()
}

/// The line of a trace that a line of a sketch of at most 96 bytes is, as a move of this thread.
#[tactic(auto, unfolding(crate::specs::Open::filled_line))]
pub fn filled_line(line: &[u8], thread: u8) -> Option<TraceLine>
    ensures { result ≡ filled_line thread line.now }
{
    filled(line, thread, None)
}

/// The line of a trace that a line of a sketch is which does not name its word, as a move of this
/// thread on this word.
#[tactic(auto, unfolding(crate::specs::Open::filled_line_on))]
pub fn filled_line_on(line: &[u8], thread: u8, word: WordName) -> Option<TraceLine>
    ensures { result ≡ filled_line_on thread word line.now }
{
    filled(line, thread, Some(word))
}
