//! The last line of a report: its end, a refused move, or the fault of its text.

ghost use Rattle.std.specs.Prelude.{◌≡◌, ◌≤◌, ◌++◌, length, IfOk, List, OnErr, take, ℕ};
ghost use Rattle.lk_lines.specs.Reads.{IsOfText, Fails};
ghost use Rattle.lk_replay.specs.Report.{at_line, fault_line, last_line, refusal_text, report_text};
ghost use Rattle.lk_replay.specs.Schedule.{plan_of};

use crate::report::text::Text;
use itoa::Buffer;
use lk_lines::{ReadFault, move_text};
use lk_locks::{Move, Refusal};
use std::alloc::AllocError;

// `WHAT line L `
fn at_line(what: &[u8], line: u32) -> Text
    requires { length what.now ≤ 16 }
    ensures text { result ≡ at_line what.now line }
    ensures short { length result ≤ 64 }
{
    let mut number = Buffer::new();
    let mut text = Text::new();
    text.push(what);
    text.push(b" line ");
    text.push(number.format(line).as_bytes());
    text.push(b" ");
    text
}

// Appends why a move was refused.
#[tactic(auto, unfolding(crate::specs::Report::refusal_text))]
fn push_reason(text: &mut Text, refusal: Refusal)
    requires { length text.old ≤ 64 }
    ensures reason { text.new ≡ text.old ++ refusal_text refusal }
    ensures short { length text.new ≤ 128 }
{
    text.push(refusal.name().as_bytes());
    if let Refusal::WrongStep { next } = refusal {
        text.push(b" next ");
        text.push(move_text(Move::Step(next)).as_bytes());
    }
}

/// Puts the last line of a replay with `count` accepted moves at the front of a place, and returns
/// how long it is.
pub fn put_last(place: &mut [u8], count: u32, refused: Option<(u32, Refusal)>) -> usize
    requires { 320 ≤ length place.old }
    ensures text { take result place.new ≡ last_line count refused }
    ensures fits { result ≤ length place.new }
{
    let mut number = Buffer::new();
    let mut line = Text::new();
    match refused {
        Some((number, refusal)) => {
            line = at_line(b"refused", number);
            push_reason(&mut line, refusal);
        }
        None => {
            line.push(b"end ");
            line.push(number.format(count).as_bytes());
        }
    }
    line.push(b"\n");
    let text = line.as_slice();
    place[..text.len()].copy_from_slice(text);
    text.len()
}

/// The line of a text's fault, which is the whole report of the text.
///
/// # Errors
///
/// `OutOfMemory` is no fault of a text.
#[tactic(auto, unfolding(crate::specs::Report::report_text))]
pub fn fault_text(fault: ReadFault) -> Result<Text, AllocError>
    ensures line { IfOk result (λ line.
        (bytes : List ℕ) → Fails fault (plan_of bytes) → line ≡ report_text bytes) }
    ensures no_memory { IfOk result (λ line. IsOfText fault) }
    ensures none { OnErr result (fault ≡ ReadFault.OutOfMemory) }
{
    let (mut text, name) = match fault {
        ReadFault::NoHeader(line) => (at_line(b"fault", line), "NoHeader"),
        ReadFault::BadHeader(line) => (at_line(b"fault", line), "BadHeader"),
        ReadFault::BadThreads(line) => (at_line(b"fault", line), "BadThreads"),
        ReadFault::BadLine(line) => (at_line(b"fault", line), "BadLine"),
        ReadFault::TooManyMoves(line) => (at_line(b"fault", line), "TooManyMoves"),
        ReadFault::WordsTooNarrow(line) => (at_line(b"fault", line), "WordsTooNarrow"),
        ReadFault::TooLong => (Text::new(), "fault TooLong"),
        ReadFault::OutOfMemory => return Err(AllocError),
    };
    text.push(name.as_bytes());
    text.push(b"\n");
    Ok(text)
}
