//! The numbers by which a page knows locks, due steps and faults, and what may come next in a line.
//! Enums without fields are numbered in their order: from 0, and from 1 if 0 is none of them.
//! Moves, outcomes, refusals and the faults of traces have the numbers of `lk_trace`, phases those
//! of `lk_search`.

ghost use Rattle.std.specs.Prelude.{◌≡◌, IfSome};
ghost use Rattle.lk_page.specs.Codes.{lock_code, is_unlinked, due_code};
ghost use Rattle.lk_page.specs.Codes.{refusal_step, fault_codes, as_fault, expected_code};
ghost use Rattle.lk_trace.specs.Codes.{fault_number};

use lk_lines::{Expected, ReadFault};
use lk_locks::{LockKind, Move, Phase, Refusal, StepKind};
use lk_trace::{TextFault, fault_number, move_number};

/// The number of a lock.
pub fn lock_code(kind: LockKind) -> u8
    ensures { result ≡ lock_code kind }
{
    kind as u8
}

/// Whether a thread in this phase is in the queue of an MCS lock, and has not linked itself to its
/// predecessor.
pub fn is_unlinked(phase: Phase) -> bool
    ensures { result ≡ is_unlinked phase }
{
    matches!(phase, Phase::SetLocked(_) | Phase::LinkTo(_))
}

/// The step that is due, and 0, which no step has, if none is.
pub fn due_code(due: Option<StepKind>) -> u8
    ensures { result ≡ due_code due }
{
    due.map_or(0, |step| move_number(Move::Step(step)))
}

/// The due step that a refusal names, and 0 if it names none.
pub fn refusal_step(refusal: Refusal) -> u8
    ensures { result ≡ refusal_step refusal }
{
    match refusal {
        Refusal::WrongStep { next } => move_number(Move::Step(next)),
        _ => 0,
    }
}

// The number of a fault that traces have too.
fn number_of(fault: TextFault) -> u32
    ensures { result ≡ fault_number fault }
{
    u32::from(fault_number(fault))
}

/// The number of a fault, and the line that it names.
pub fn fault_codes(fault: ReadFault) -> (u32, u32)
    ensures { IfSome (as_fault fault) (λ f. result ≡ fault_codes f) }
{
    match fault {
        ReadFault::NoHeader(line) => (number_of(TextFault::NoHeader), line),
        ReadFault::BadHeader(line) => (number_of(TextFault::BadHeader), line),
        ReadFault::BadThreads(line) => (number_of(TextFault::BadThreads), line),
        ReadFault::WordsTooNarrow(line) => (number_of(TextFault::WordsTooNarrow), line),
        ReadFault::BadLine(line) => (number_of(TextFault::BadLine), line),
        ReadFault::TooLong => (21, 0),
        ReadFault::TooManyMoves(line) => (22, line),
        ReadFault::OutOfMemory => (23, 0),
    }
}

/// The number of what may come next.
pub fn expected_code(expected: Expected) -> u64
    ensures { result ≡ expected_code expected }
{
    expected as u64 + 1
}
