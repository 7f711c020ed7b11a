//! Moves, outcomes, refusals and the faults of texts as numbers. `built/locktrace.h` and the page
//! have the same ones.

ghost use Rattle.std.specs.Prelude.{◌≡◌};
ghost use Rattle.lk_trace.specs.Codes.{fault_number, move_number, outcome_number, refusal_number};

use crate::TextFault;
use lk_locks::{Move, Outcome, Refusal};

/// The number of a move: calls from 0, steps from 16, each in the order of its enum.
pub fn move_number(action: Move) -> u8
    ensures { result ≡ move_number action }
{
    match action {
        Move::Call(op) => op as u8,
        Move::Step(step) => 16 + step as u8,
    }
}

/// The number of an outcome, from 0 in the order of the enum.
pub fn outcome_number(outcome: Outcome) -> u8
    ensures { result ≡ outcome_number outcome }
{
    outcome as u8
}

/// The number of a refusal, from 1, without the step that it names.
pub fn refusal_number(refusal: Refusal) -> u8
    ensures { result ≡ refusal_number refusal }
{
    match refusal {
        Refusal::NoSuchThread => 1,
        Refusal::WrongLock => 2,
        Refusal::Busy => 3,
        Refusal::NotHolder => 4,
        Refusal::AlreadyHolds => 5,
        Refusal::NoCall => 6,
        Refusal::WrongStep { .. } => 7,
    }
}

/// The number of a text's fault, from 16 in the order of the enum.
pub fn fault_number(fault: TextFault) -> u8
    ensures { result ≡ fault_number fault }
{
    16 + fault as u8
}
