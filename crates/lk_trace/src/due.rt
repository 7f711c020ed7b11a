//! The parts that may come next in a line of a trace or of a sketch, for a message: their texts,
//! and the words that could be there. Thread and move are a schedule's.

use lk_lines::{Expected, LOCK_NAMES, MOVE_NAMES, OUTCOME_NAMES};
use lk_locks::StepKind;
use std::fmt;

/// The part that may come next. If it can be left out, the part after it or the end may come here
/// too. After a step it says which: `done` and `failed` may follow a compare-and-swap alone.
#[derive(Clone, Copy, PartialEq, Eq, Debug)]
pub enum Due {
    /// A part that a schedule has here as well.
    OfSchedule(Expected),
    /// The count of a section, or its outcome.
    Count,
    Outcome,
    /// The word of the lock that the step was on, or its outcome.
    Place(StepKind),
    /// `of`, `found`, or what may follow that.
    Of(StepKind),
    /// The thread after `of`.
    Owner(StepKind),
    /// `found`, `left`, or how the step ended.
    Found(StepKind),
    /// The number after `found`.
    FoundValue(StepKind),
    /// `left`, or how the step ended.
    Left(StepKind),
    /// The number after `left`.
    LeftValue(StepKind),
    /// `done` or `failed`.
    Result(StepKind),
    /// Of a sketch: `*`, or a thread's number.
    AnyThread,
    /// Of a sketch: a call or a step.
    OpenMove,
    /// Of a sketch: the word of the lock, a part without it, or the outcome.
    Open(StepKind),
}

/// Nothing but the end.
pub(crate) const END: Due = Due::OfSchedule(Expected::End);

const OUTCOME: &str = "moved, waits, entered or left";

// The words of the locks, the outcomes, and the parts that may come if a sketch names no word:
// `left` is both.
const OPEN: [&str; 12] = [
    "next_ticket",
    "now_serving",
    "tail",
    "next",
    "locked",
    "moved",
    "waits",
    "entered",
    "left",
    "found",
    "done",
    "failed",
];

// The parts after a word of the lock, in this order. The last two are a compare-and-swap's.
const PARTS: [&str; 5] = ["of", "found", "left", "done", "failed"];

// The parts from this one on.
fn parts_from(kind: StepKind, first: usize) -> &'static [&'static str] {
    let end = if matches!(kind, StepKind::Cas) { 5 } else { 3 };
    PARTS.get(first..end).unwrap_or(&[])
}

impl Due {
    /// The words that could be here.
    pub fn words(self) -> &'static [&'static str] {
        match self {
            Due::OfSchedule(Expected::Lock) => &["lock"],
            Due::OfSchedule(Expected::Name) => &LOCK_NAMES,
            Due::OfSchedule(Expected::Threads) => &["threads"],
            Due::OfSchedule(Expected::Bits) => &["bits"],
            Due::OfSchedule(Expected::Action) | Due::OpenMove => &MOVE_NAMES,
            Due::Count | Due::Outcome => &OUTCOME_NAMES,
            Due::Place(_) => OPEN.get(..9).unwrap_or(&[]),
            Due::Open(StepKind::Cas) => &OPEN,
            Due::Open(_) => OPEN.get(..10).unwrap_or(&[]),
            Due::Of(kind) => parts_from(kind, 0),
            Due::Found(kind) => parts_from(kind, 1),
            Due::Left(kind) => parts_from(kind, 2),
            Due::Result(kind) => parts_from(kind, 3),
            _ => &[],
        }
    }
}

impl fmt::Display for Due {
    fn fmt<W: fmt::Write>(&self, f: &mut fmt::Formatter<W>) -> fmt::Result {
        match self {
            Due::OfSchedule(expected) => write!(f, "{expected}"),
            Due::OpenMove => write!(f, "{}", Expected::Action),
            Due::Count => write!(f, "the end, the section's count, or {OUTCOME}"),
            Due::Outcome => write!(f, "the end, or {OUTCOME}"),
            Due::Place(_) => write!(
                f,
                "the end, a word (next_ticket, now_serving, tail, next or locked), or {OUTCOME}",
            ),
            Due::Owner(_) => f.write_str("a thread's number, from 0 to 255"),
            Due::FoundValue(_) | Due::LeftValue(_) => { f.write_str("a number of at most 64 bits") }
            Due::AnyThread => f.write_str("'*', or a thread's number, from 0 to 255"),
            _ => {
                f.write_str("the end")?;
                let Some((last, others)) = self.words().split_last() else {
                    return Ok(());
                };
                for word in others {
                    write!(f, ", '{word}'")?;
                }
                let or = if others.is_empty() { ", or" } else { " or" };
                write!(f, "{or} '{last}'")
            }
        }
    }
}
