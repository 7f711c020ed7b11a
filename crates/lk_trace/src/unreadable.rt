//! Where a line stops being one of a trace or of a sketch, and what could be there: what a message
//! to its writer needs.

ghost use Rattle.std.specs.Prelude.{◌≡◌, ℕ, ◌≤◌, ◌↔◌, IsNone, IsSome, IsTrue, length, option_map};
ghost use Rattle.lk_lines.specs.Lines.{tokens_of};
ghost use Rattle.lk_trace.specs.Lines.{remaining, trace_line_of, words_left};
ghost use Rattle.lk_trace.specs.Unreadable.{is_open_line, later, open_due, place_of};
ghost use Rattle.lk_trace.specs.Unreadable.{sketch_place_of};
ghost use Rattle.lk_trace.specs.Unreadable.{sketch_stop, trace_place_of, width};
ghost use Rattle.lk_trace.specs.declared.names.WordName.{WordName};

use crate::line::{Rest, first_word, line_in, move_with};
use crate::{Due, WordName, doer_of};

// The number of bytes left, with the space before them.
#[tactic(auto, using(crate::proofs::Widths::width_words))]
fn width_of(text: Option<&[u8]>) -> usize
    ensures { result ≡ width (words_left text.entry) }
{
    match text {
        Some(rest) => rest.len() + 1,
        None => 0,
    }
}

// The column, from 1, of what is left of a line, and what could be there.
fn place_of(line: &[u8], rest: Rest<'_>) -> (usize, Due)
    ensures { result ≡ place_of line.now (remaining rest.entry) }
{
    ((line.len() + 2).saturating_sub(width_of(rest.0)), rest.1)
}

/// The column, from 1, at which a line stops being a move of a trace, and what could be there. A
/// move may have any length here.
#[tactic(auto, unfolding(crate::specs::Lines::trace_line_of))]
pub fn unreadable_line(line: &[u8]) -> Option<(usize, Due)>
    ensures place { result ≡ trace_place_of line.now }
    ensures none { IsNone result ↔ IsSome (trace_line_of line.now) }
{
    let stop = line_in(line).err()?;
    Some(place_of(line, stop))
}

// The part due in a sketch where this is due in a trace.
fn opened(due: Due) -> Due
    ensures { result ≡ open_due due }
{
    match due {
        Due::Place(kind) => Due::Open(kind),
        due => due,
    }
}

// Where a line of a sketch stops that stops here if it names its word, and there if it does not.
fn later<'a>(named: Rest<'a>, unnamed: Rest<'a>) -> Rest<'a>
    ensures { remaining result ≡ later (remaining named.entry) (remaining unnamed.entry) }
{
    if width_of(unnamed.0) < width_of(named.0) {
        unnamed
    } else {
        (named.0, opened(named.1))
    }
}

// Where a line of a sketch stops, if it does. Whose move it is and on which word is all the same.
#[tactic(auto, unfolding(crate::specs::Open::doer_of))]
fn sketch_stop(line: &[u8]) -> Option<Rest<'_>>
    ensures { option_map remaining result ≡ sketch_stop (tokens_of line.now) }
{
    let Some(_) = doer_of(line) else {
        return Some((Some(line), Due::AnyThread));
    };
    let Some((_, text)) = first_word(Some(line)) else {
        return Some((None, Due::AnyThread));
    };
    let rest = (text, Due::OpenMove);
    let named = move_with(rest, 0, None).err()?;
    let unnamed = move_with(rest, 0, Some(WordName::Tail)).err()?;
    Some(later(named, unnamed))
}

/// The column, from 1, at which a line stops being one of a sketch, and what could be there.
pub fn unreadable_sketch_line(line: &[u8]) -> Option<(usize, Due)>
    ensures place { result ≡ sketch_place_of line.now }
    ensures none { length line.now ≤ 96 → (thread : ℕ) → (word : WordName)
        → (IsNone result ↔ IsTrue (is_open_line thread word line.now)) }
{
    let stop = sketch_stop(line)?;
    Some(place_of(line, stop))
}
