//! Advice after a step in which a run differs from the published algorithm, by the lock and the
//! phase of the thread: what a lock has to do there, and what recorders forget.

use crate::{mcs, rw_fifo, rw_simple, ticket};
use lk_locks::{LockKind, Phase, Refusal};

/// The part of a step that differs from the algorithm's.
#[derive(Clone, Copy)]
pub enum Wrong {
    /// It is on another word.
    Word,
    /// The word had another value before.
    Found,
    /// The word has another value afterwards.
    Left,
    /// A compare-and-swap wrote, or failed.
    Written,
    /// A section has a count that is not above the last one.
    Count,
    /// The step has another outcome.
    Outcome,
}

const NOTE_WRITES: &str =
    "note each operation right after it: a write to this word is missing here, or comes too late";

const SAME_STEP: &str = "compare the step with the lock's code";

fn help_for_busy(kind: LockKind, phase: Phase) -> &'static str {
    match kind {
        LockKind::Ticket => ticket::help_for_busy(phase),
        LockKind::Mcs => mcs::help_for_busy(phase),
        LockKind::RwSimple | LockKind::RwFifo => {
            "return from a call only after a section of it that enters or leaves"
        }
    }
}

fn help_for_step(kind: LockKind, phase: Phase) -> &'static str {
    match kind {
        LockKind::Ticket => ticket::help_for_step(phase),
        LockKind::Mcs => mcs::help_for_step(phase),
        LockKind::RwSimple | LockKind::RwFifo => "note one section for each look at the words",
    }
}

fn help_for_outcome(kind: LockKind, phase: Phase) -> &'static str {
    match kind {
        LockKind::RwSimple => rw_simple::help_for_outcome(phase),
        LockKind::RwFifo => rw_fifo::help_for_outcome(phase),
        LockKind::Ticket | LockKind::Mcs => SAME_STEP,
    }
}

/// The advice for a move that the algorithm does not have, of a thread in this phase.
pub fn help_for_refusal(kind: LockKind, phase: Phase, refusal: Refusal) -> &'static str {
    match (refusal, phase) {
        (Refusal::NoSuchThread, _) => {
            "number threads from 0 on, and give the header as many as the run has"
        }
        (Refusal::WrongLock, _) => "name in the header the lock whose calls and steps these are",
        (Refusal::Busy, _) => help_for_busy(kind, phase),
        (Refusal::NotHolder, _) => {
            "release a lock once, by the thread that took it, in the mode in which it did"
        }
        (Refusal::AlreadyHolds, _) => {
            "give the lock back before it is taken again; perhaps a release was not noted"
        }
        (Refusal::NoCall, Phase::Idle) => {
            "make no step after a release has left; perhaps a call was not noted"
        }
        (Refusal::NoCall, _) => {
            "make no step after an acquire has entered; perhaps a step was noted twice"
        }
        (Refusal::WrongStep { .. }, _) => help_for_step(kind, phase),
    }
}

/// The advice for a step of which this part differs, of a thread in this phase.
pub fn help_for_step_with(kind: LockKind, phase: Phase, wrong: Wrong) -> &'static str {
    let own = match kind {
        LockKind::Ticket => ticket::help_for_value(phase, wrong),
        LockKind::Mcs => mcs::help_for_value(phase, wrong),
        LockKind::RwSimple | LockKind::RwFifo => None,
    };
    match wrong {
        Wrong::Found => own.unwrap_or(NOTE_WRITES),
        Wrong::Word | Wrong::Left | Wrong::Written => own.unwrap_or(SAME_STEP),
        Wrong::Count => "take the count inside the monitor, and add one to it for each section",
        Wrong::Outcome => help_for_outcome(kind, phase),
    }
}
