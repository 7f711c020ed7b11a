//! In what a line of a trace differs from its lock: in parts for programs, and in a sentence that
//! these parts fill.

ghost use Rattle.std.specs.Prelude.{◌≡◌, IfSome, Some};
ghost use Rattle.lk_text.specs.Differences.{AreNumbers, numbers_of};
ghost use Rattle.lk_text.specs.Texts.{Grows};

use crate::course::Course;
use crate::phrases::{Lock, called};
use crate::report::{Code, Datum, Details};
use crate::{Text, Value};
use lk_catalogue::{Awaited, polled_for};
use lk_lines::{lock_text, move_text};
use lk_locks::{Move, Outcome, Refusal};
use lk_trace::{Difference, TraceLine, name_at};
use std::fmt::InlineText;

// Why a move is refused.
fn refusal_sentence(refusal: Refusal) -> &'static str {
    match refusal {
        Refusal::NoSuchThread => "'{thread} {step}', but the header has no such thread ({code})",
        Refusal::WrongLock =>
            "'{thread} {step}', but the published {lock} lock has no such move ({code})",
        Refusal::Busy => "'{thread} {step}', but {who}'s last call is pending ({code})",
        Refusal::NotHolder => {
            "'{thread} {step}', but {who} does not hold the lock in that mode ({code})"
        }
        Refusal::AlreadyHolds => "'{thread} {step}', but {who} holds the lock already ({code})",
        Refusal::NoCall => "'{thread} {step}', but {who} has no pending call ({code})",
        Refusal::WrongStep { .. } => {
            "'{thread} {step}', but in the published algorithm {who}'s next step is '{expected}' \
                ({code})"
        }
    }
}

// In what a line differs.
fn sentence_of(difference: Difference) -> &'static str {
    match difference {
        Difference::Refused(refusal) => refusal_sentence(refusal),
        Difference::OtherWord { .. } => {
            "{who}'s {step} is on {found}; the published algorithm's is on {expected}"
        }
        Difference::FoundOther { .. } => {
            "{who}'s {step} found {found} in {word}; the published algorithm has {expected}"
        }
        Difference::LeftOther { .. } => {
            "{who}'s {step} left {found} in {word}; the published algorithm leaves {expected}"
        }
        Difference::WroteOther { wrote: true } =>
            "{who}'s {step} failed; the published algorithm's writes",
        Difference::WroteOther { wrote: false } =>
            "{who}'s {step} wrote; the published algorithm's fails",
        Difference::CountNotAbove { .. } => {
            "{who}'s {step} has the count {found}, after the count {last}"
        }
        Difference::OtherOutcome { .. } => {
            "{who}'s {step} came to '{found}'; the published algorithm's to '{expected}'"
        }
    }
}

// The values expected and found, of a difference that says them.
fn datums_of(line: TraceLine, difference: Difference) -> Option<(Datum, Datum)>
    ensures { IfSome (numbers_of difference) (AreNumbers result) }
{
    let (own, given) = match difference {
        Difference::Refused(Refusal::WrongStep { next }) => {
            (Datum::Move(Move::Step(next)), Datum::Move(line.action))
        }
        Difference::Refused(_) => return None,
        Difference::OtherWord { word, given } => (Datum::Word(word?), Datum::Word(given)),
        Difference::FoundOther { found, given, .. } => (Datum::Number(found), Datum::Number(given)),
        Difference::LeftOther { left, given, .. } => (Datum::Number(left), Datum::Number(given)),
        Difference::WroteOther { wrote } => (Datum::Wrote(wrote), Datum::Wrote(!wrote)),
        Difference::CountNotAbove { last, given } => {
            (Datum::Number(last.saturating_add(1)), Datum::Number(given))
        }
        Difference::OtherOutcome { outcome, given } => {
            (Datum::Outcome(outcome), Datum::Outcome(given))
        }
    };
    Some((own, given))
}

// A difference in parts, without what was polled before it.
fn parts_of(line: TraceLine, difference: Difference) -> Details
    ensures code { result.code ≡ Code.Differs difference }
    ensures thread { result.thread ≡ Some line.thread }
{
    let mut details = Details::new(Code::Differs(difference));
    details.thread = Some(line.thread);
    details.step = Some(line.action);
    match difference {
        Difference::OtherWord { word, given } => {
            details.word = word;
            details.found = Some(Datum::Word(given));
        }
        Difference::FoundOther { word, .. } | Difference::LeftOther { word, .. } => {
            details.word = Some(word);
        }
        _ => {}
    }
    if let Some((expected, found)) = datums_of(line, difference) {
        details.expected = Some(expected);
        details.found = Some(found);
    }
    details
}

// Adds the last poll of a thread that went on all the same: its word, the value that it waits for,
// if that is one, and what it found.
fn add_poll(details: &mut Details, lock: &Lock, course: &Course, thread: u8) -> Option<()>
    ensures code { details.new.code ≡ details.old.code }
    ensures thread { details.new.thread ≡ details.old.thread }
{
    let made = course.steps(thread)[0]?.made;
    let effect = made.effect?;
    let word = name_at(lock.kind(), effect.word)?;
    if made.outcome != Outcome::Waits {
        return None;
    }
    details.word = Some(word);
    if let Some(Awaited::Ticket(due) | Awaited::Value(due)) = polled_for(lock.kind(), made.from) {
        details.expected = Some(Datum::Number(due));
    }
    details.found = Some(Datum::Number(effect.found));
    Some(())
}

/// In what a line differs from the lock, in parts.
pub fn details_of(lock: &Lock, course: &Course, line: TraceLine, difference: Difference) -> Details
    ensures code { result.code ≡ Code.Differs difference }
    ensures thread { result.thread ≡ Some line.thread }
{
    let mut details = parts_of(line, difference);
    if difference == Difference::Refused(Refusal::Busy) {
        let _ = add_poll(&mut details, lock, course, line.thread);
    }
    details
}

// A value as a text, or nothing.
fn shown(datum: Option<Datum>) -> InlineText<40> {
    datum.map_or(InlineText::new(), |datum| datum.shown())
}

// The count that a count has to be above.
fn last_count(difference: Difference) -> u64 {
    match difference {
        Difference::CountNotAbove { last, .. } => last,
        _ => 0,
    }
}

/// Says in what a line differs from the lock, for threads of these names.
pub fn put_refused(
    text: &mut Text,
    lock: &Lock,
    names: &[String],
    line: TraceLine,
    difference: Difference,
)
    ensures { Grows text.old text.new }
{
    let details = parts_of(line, difference);
    let places = [
        ("who", called(line.thread, names)),
        ("thread", Value::Number(u64::from(line.thread))),
        ("step", Value::Text(move_text(line.action))),
        ("lock", Value::Text(lock_text(lock.kind()))),
        ("code", Value::Text(difference.name())),
        ("word", Value::Short(shown(details.word_found()))),
        ("expected", Value::Short(shown(details.expected))),
        ("found", Value::Short(shown(details.found))),
        ("last", Value::Number(last_count(difference))),
    ];
    text.fill(sentence_of(difference), &places);
}
