//! Advice after the line that ends a trace: what a lock has to do there, and what recorders forget.

use lk_catalogue::{Wrong, help_for_refusal, help_for_step_with};
use lk_locks::Phase;
use lk_trace::{Checker, Difference, TraceLine};

/// The advice for a text that is no trace, since it has no header.
pub const BEGIN: &str = "begin with a header, as in: lock mcs threads 2";

/// The advice for a line that differs from its lock. A thread that the lock does not have is in no
/// call.
pub fn help_for(checker: &Checker, line: TraceLine, difference: Difference) -> &'static str {
    let kind = checker.lock().kind();
    let phase = checker.phase(line.thread).unwrap_or(Phase::Idle);
    let wrong = match difference {
        Difference::Refused(refusal) => return help_for_refusal(kind, phase, refusal),
        Difference::OtherWord { .. } => Wrong::Word,
        Difference::FoundOther { .. } => Wrong::Found,
        Difference::LeftOther { .. } => Wrong::Left,
        Difference::WroteOther { .. } => Wrong::Written,
        Difference::CountNotAbove { .. } => Wrong::Count,
        Difference::OtherOutcome { .. } => Wrong::Outcome,
    };
    help_for_step_with(kind, phase, wrong)
}
