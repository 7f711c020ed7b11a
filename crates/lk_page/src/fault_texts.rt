//! The faults of a trace as numbers, and their texts. `built/locktrace.h` has the same numbers.

ghost use Rattle.std.specs.Prelude.{◌≡◌};
ghost use Rattle.lk_page.specs.FaultNumbers.{difference_number};
ghost use Rattle.lk_page.specs.FaultTexts.{text_of_number};

use lk_locks::{Refusal, StepKind};
use lk_trace::{Difference, refusal_number};

/// Refusals from 1, values from 8.
pub fn difference_number(difference: Difference) -> u32
    ensures { result ≡ difference_number difference }
{
    match difference {
        Difference::Refused(refusal) => u32::from(refusal_number(refusal)),
        Difference::OtherWord { .. } => 8,
        Difference::FoundOther { .. } => 9,
        Difference::LeftOther { .. } => 10,
        Difference::WroteOther { .. } => 11,
        Difference::CountNotAbove { .. } => 12,
        Difference::OtherOutcome { .. } => 13,
    }
}

/// The text of a number.
pub fn fault_text(fault: u32) -> &'static str
    ensures { result.now ≡ text_of_number fault }
{
    let next = StepKind::Read; // whichever it is, the text is the same
    match fault {
        0 => "accepted",
        1 => Refusal::NoSuchThread.text(),
        2 => Refusal::WrongLock.text(),
        3 => Refusal::Busy.text(),
        4 => Refusal::NotHolder.text(),
        5 => Refusal::AlreadyHolds.text(),
        6 => Refusal::NoCall.text(),
        7 => Refusal::WrongStep { next }.text(),
        8 => "OtherWord: the lock's step is on another word",
        9 => "FoundOther: the lock has another value in the word",
        10 => "LeftOther: the lock leaves another value in the word",
        11 => "WroteOther: the lock's compare-and-swap ends otherwise",
        12 => "CountNotAbove: the section's count is not above those before it",
        13 => "OtherOutcome: something else comes of the lock's step",
        16 => "NoHeader: there is no header",
        17 => "BadHeader: not a header",
        18 => "BadThreads: not a number of threads",
        19 => "WordsTooNarrow: words too narrow for the threads",
        20 => "BadLine: not a move",
        _ => "no fault has this number",
    }
}
