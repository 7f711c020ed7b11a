//! A line of a trace or of a log, read: a move, and what its thread saw. Or where the line stops
//! being one, and what could be there: docs/FORMATS.md has the grammar.

ghost use Rattle.std.specs.Prelude.{◌≡◌, [], ◌∷◌, IfOk, IfSome, MatchOption};
ghost use Rattle.lk_lines.specs.Digits.{whole_number};
ghost use Rattle.lk_lines.specs.Lines.{tokens_of};
ghost use Rattle.lk_lines.specs.Vocabulary.{number_of};
ghost use Rattle.lk_trace.specs.Lines.{line_of_words, move_with, outcome_alone, outcome_of};
ghost use Rattle.lk_trace.specs.Lines.{owner_of, part_of, place_in, remaining, result_alone};
ghost use Rattle.lk_trace.specs.Lines.{result_of, section_of, seen_of, short_line_of};
ghost use Rattle.lk_trace.specs.Lines.{short_log_line_of, step_of, after_tag, values_of, values_on};
ghost use Rattle.lk_trace.specs.Lines.{whole_of, word_in, words_left};

use crate::WordName;
use crate::due::{Due, END};
use lk_lines::{Expected, cut_token, move_named, number_of, outcome_named, whole_number};
use lk_locks::{Move, Outcome, StepKind};

/// The most bytes of a header and of a move.
pub const MOST_OF_A_LINE: usize = 96;

/// The part of a line after the kind of its step. A part that is left out is not checked.
#[derive(Clone, Copy, PartialEq, Eq, Debug)]
pub enum Seen {
    Nothing,
    /// The step was on this word. It had `found` before and has `left` afterwards; of a
    /// compare-and-swap, whether it wrote.
    OnWord {
        word: WordName,
        found: Option<u64>,
        left: Option<u64>,
        wrote: Option<bool>,
    },
    /// The outcome of the step; and of a section, which one of its monitor it was.
    WithOutcome {
        count: Option<u64>,
        outcome: Option<Outcome>,
    },
}

/// A move of a trace, with what its thread saw.
#[derive(Clone, Copy, PartialEq, Eq, Debug)]
pub struct TraceLine {
    pub thread: u8,
    pub action: Move,
    pub seen: Seen,
}

/// The rest of a line, and what could be there.
pub(crate) type Rest<'a> = (Option<&'a [u8]>, Due);

/// All that was left of a line, or where the line stops.
pub(crate) type Whole<'a, T> = Result<T, Rest<'a>>;

/// A part of a line and what is left after it, or where the line stops.
type Part<'a, T> = Result<(T, Rest<'a>), Rest<'a>>;

// The next word, and what is left after it.
#[inline(always)]
pub(crate) fn first_word(text: Option<&[u8]>) -> Option<(&[u8], Option<&[u8]>)>
    ensures { MatchOption result (words_left text.entry ≡ [])
        (λ cut. words_left text.entry ≡ cut.0.now ∷ words_left cut.1) }
{
    let line = text?;
    match cut_token(line) {
        Some((word, after)) => Some((word, Some(after))),
        None => Some((line, None)),
    }
}

// The thread whose number comes next, and then this is due.
#[inline(always)]
fn thread_in(rest: Rest<'_>, next: Due) -> Part<'_, u8>
    ensures { part_of result ≡ word_in (number_of 0 255) next (remaining rest.entry) }
{
    let (word, after) = first_word(rest.0).ok_or(rest)?;
    let thread = number_of(word, 0, 255).ok_or(rest)?;
    Ok((thread, (after, next)))
}

// Whose record it is, if that is said: `of J`.
#[inline(always)]
fn owner_of(rest: Rest<'_>, kind: StepKind) -> Part<'_, Option<u8>>
    ensures { part_of result ≡ owner_of kind (remaining rest.entry) }
{
    let Some((of, after)) = first_word(rest.0) else {
        return Ok((None, rest));
    };
    if of != b"of".as_slice() {
        return Ok((None, rest));
    }
    let (owner, rest) = thread_in((after, Due::Owner(kind)), Due::Found(kind))?;
    Ok((Some(owner), rest))
}

// The word that a step of this thread was on, by its name. None if the line ends here.
fn place_in(rest: Rest<'_>, thread: u8, kind: StepKind) -> Part<'_, Option<WordName>>
    ensures { part_of result ≡ place_in thread kind (remaining rest.entry) }
{
    let Some((name, after)) = first_word(rest.0) else {
        return Ok((None, rest));
    };
    if name == b"next_ticket".as_slice() {
        return Ok((Some(WordName::NextTicket), (after, Due::Found(kind))));
    }
    if name == b"now_serving".as_slice() {
        return Ok((Some(WordName::NowServing), (after, Due::Found(kind))));
    }
    if name == b"tail".as_slice() {
        return Ok((Some(WordName::Tail), (after, Due::Found(kind))));
    }
    let is_next = name == b"next".as_slice();
    if !is_next && name != b"locked".as_slice() {
        return Err(rest);
    }
    let (owner, rest) = owner_of((after, Due::Of(kind)), kind)?;
    let owner = owner.unwrap_or(thread);
    if is_next {
        Ok((Some(WordName::Next(owner)), rest))
    } else {
        Ok((Some(WordName::Locked(owner)), rest))
    }
}

// The number after this word, if this word is the next one. `value` is due after the word, and
// `next` after the number.
#[inline(always)]
fn tagged<'a>(rest: Rest<'a>, tag: &[u8], value: Due, next: Due) -> Part<'a, Option<u64>>
    ensures { part_of result ≡ after_tag tag.now whole_number value next (remaining rest.entry) }
{
    let Some((word, after)) = first_word(rest.0) else {
        return Ok((None, rest));
    };
    if word != tag {
        return Ok((None, rest));
    }
    let Some((number, end)) = first_word(after) else {
        return Err((after, value));
    };
    let number = whole_number(number).ok_or((after, value))?;
    Ok((Some(number), (end, next)))
}

// Whether a compare-and-swap wrote. No other step says so.
fn result_alone(kind: StepKind, word: &[u8]) -> Option<bool>
    ensures { result ≡ result_alone kind word.now }
{
    if !matches!(kind, StepKind::Cas) {
        None
    } else if word == b"done".as_slice() {
        Some(true)
    } else if word == b"failed".as_slice() {
        Some(false)
    } else {
        None
    }
}

// Whether a compare-and-swap wrote, if that is said. Nothing may follow.
#[inline(always)]
fn result_of(rest: Rest<'_>, kind: StepKind) -> Whole<'_, Option<bool>>
    ensures { whole_of result ≡ result_of kind (remaining rest.entry) }
{
    let Some((word, after)) = first_word(rest.0) else {
        return Ok(None);
    };
    let wrote = result_alone(kind, word).ok_or(rest)?;
    match first_word(after) {
        Some(_) => Err((after, END)),
        None => Ok(Some(wrote)),
    }
}

// The values that a step saw of this word.
#[inline(always)]
fn values_on(rest: Rest<'_>, word: WordName, kind: StepKind) -> Whole<'_, Seen>
    ensures { whole_of result ≡ values_on kind word (remaining rest.entry) }
{
    let (found, rest) = tagged(rest, b"found", Due::FoundValue(kind), Due::Left(kind))?;
    let (left, rest) = tagged(rest, b"left", Due::LeftValue(kind), Due::Result(kind))?;
    let wrote = result_of(rest, kind)?;
    Ok(Seen::OnWord {
        word,
        found,
        left,
        wrote,
    })
}

// The values that a step saw of its word, if some are said.
fn values_of(rest: Rest<'_>, thread: u8, kind: StepKind) -> Whole<'_, Seen>
    ensures { whole_of result ≡ values_of thread kind (remaining rest.entry) }
{
    let (word, rest) = place_in(rest, thread, kind)?;
    match word {
        Some(word) => values_on(rest, word, kind),
        None => Ok(Seen::Nothing),
    }
}

// The outcome of a section, if that is said. Nothing may follow.
fn outcome_of(rest: Rest<'_>, count: Option<u64>) -> Whole<'_, Seen>
    ensures { whole_of result ≡ outcome_of count (remaining rest.entry) }
{
    let Some((word, after)) = first_word(rest.0) else {
        return Ok(Seen::WithOutcome {
            count,
            outcome: None,
        });
    };
    let outcome = outcome_named(word).ok_or(rest)?;
    match first_word(after) {
        Some(_) => Err((after, END)),
        None => Ok(Seen::WithOutcome {
            count,
            outcome: Some(outcome),
        }),
    }
}

// The count of a section, its outcome, or both, if something is said.
fn section_of(text: Option<&[u8]>) -> Whole<'_, Seen>
    ensures { whole_of result ≡ section_of (words_left text.entry) }
{
    let Some((first, after)) = first_word(text) else {
        return Ok(Seen::Nothing);
    };
    match whole_number(first) {
        Some(count) => outcome_of((after, Due::Outcome), Some(count)),
        None => outcome_of((text, Due::Count), None),
    }
}

// The outcome that is all that follows.
fn outcome_alone(text: Option<&[u8]>) -> Option<Outcome>
    ensures { result ≡ outcome_alone (words_left text.entry) }
{
    let (word, after) = first_word(text)?;
    match first_word(after) {
        Some(_) => None,
        None => outcome_named(word),
    }
}

// The outcome of a step, or the values that it saw of its word, if something is said.
fn step_of(text: Option<&[u8]>, thread: u8, kind: StepKind) -> Whole<'_, Seen>
    ensures { whole_of result ≡ step_of thread kind (words_left text.entry) }
{
    match outcome_alone(text) {
        Some(outcome) => Ok(Seen::WithOutcome {
            count: None,
            outcome: Some(outcome),
        }),
        None => values_of((text, Due::Place(kind)), thread, kind),
    }
}

// The part after a move, on this word if the line does not name it.
fn seen_of(text: Option<&[u8]>, thread: u8, on: Option<WordName>, action: Move) -> Whole<'_, Seen>
    ensures { whole_of result ≡ seen_of thread on action (words_left text.entry) }
{
    match (on, action) {
        (None, Move::Call(_)) => match first_word(text) {
            Some(_) => Err((text, END)),
            None => Ok(Seen::Nothing),
        },
        (None, Move::Step(StepKind::Section)) => section_of(text),
        (None, Move::Step(kind)) => step_of(text, thread, kind),
        (Some(_), Move::Call(_) | Move::Step(StepKind::Section)) => Err((text, END)),
        (Some(word), Move::Step(kind)) => values_on((text, Due::Found(kind)), word, kind),
    }
}

// The move of this thread that the words are.
pub(crate) fn move_with(rest: Rest<'_>, thread: u8, on: Option<WordName>) -> Whole<'_, TraceLine>
    ensures line { whole_of result ≡ move_with thread on (remaining rest.entry) }
    ensures own { IfOk result (λ line. line.thread ≡ thread) }
{
    let (word, after) = first_word(rest.0).ok_or(rest)?;
    let action = move_named(word).ok_or(rest)?;
    let seen = seen_of(after, thread, on, action)?;
    Ok(TraceLine {
        thread,
        action,
        seen,
    })
}

// The move that a line of a trace of any length is.
pub(crate) fn line_in(line: &[u8]) -> Whole<'_, TraceLine>
    ensures { whole_of result ≡ line_of_words (tokens_of line.now) }
{
    let first = (Some(line), Due::OfSchedule(Expected::Thread));
    let (thread, rest) = thread_in(first, Due::OfSchedule(Expected::Action))?;
    move_with(rest, thread, None)
}

/// The move that a line of a trace of at most 96 bytes is: a thread's number, a word of a schedule,
/// and what the thread saw.
#[tactic(auto, unfolding(crate::specs::Lines::trace_line_of))]
pub fn read_line(line: &[u8]) -> Option<TraceLine>
    ensures { result ≡ short_line_of line.now }
{
    if line.len() > MOST_OF_A_LINE {
        return None;
    }
    line_in(line).ok()
}

/// The move that a line of this thread's log is: a line of a trace without the thread's number.
#[tactic(auto, unfolding(crate::specs::Lines::log_line_of))]
pub fn read_log_line(line: &[u8], thread: u8) -> Option<TraceLine>
    ensures line { result ≡ short_log_line_of thread line.now }
    ensures own { IfSome result (λ line. line.thread ≡ thread) }
{
    if line.len() > MOST_OF_A_LINE {
        return None;
    }
    let first = (Some(line), Due::OfSchedule(Expected::Action));
    move_with(first, thread, None).ok()
}
