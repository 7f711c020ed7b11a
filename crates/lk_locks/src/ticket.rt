//! The ticket lock: its calls, and its atomic steps, each on one of two words.
//!
//! Mellor-Crummey and Scott, "Algorithms for Scalable Synchronization on Shared-Memory
//! Multiprocessors", ACM TOCS 9(1), 1991, section 2.2. Different here: words have B bits, so
//! tickets wrap; back-off is not a step; a release is two steps, a read of `now_serving` and a
//! write of the value read plus one.
//!
//! In contracts `after_call` is the definition of `specs/ticket.antt`, and `operation` and `after`
//! are those of `specs/laws.antt`.

ghost use Rattle.std.specs.Prelude.{◌≡◌, ◌≤◌, ℕ, List};
ghost use Rattle.lk_locks.specs.Change.{Makes};
ghost use Rattle.lk_locks.specs.ticket.{after_call, operation, after};

use crate::Outcome::{Entered, Left, Moved, Waits};
use crate::Phase::{AwaitTurn, Idle, PassOn, ReadServing, TakeTicket, TicketInside};
use crate::entries::Added::{Act, ActAndReturn, Nothing, Return};
use crate::entries::Next;
use crate::{Op, Phase};
use lk_words::Answer::Found;
use lk_words::{Answer, Operation, sum};

/// The phase that a call leads to, if a thread in this phase may make it.
#[inline(always)]
pub fn after_call(phase: Phase, op: Op) -> Option<Phase>
    ensures { result ≡ after_call phase op }
{
    match (phase, op) {
        (Idle, Op::Acquire) => Some(TakeTicket),
        (TicketInside(ticket), Op::Release) => Some(ReadServing(ticket)),
        _ => None,
    }
}

/// Returns the next operation of a thread in this phase, on word 0, `next_ticket`, or on word 1,
/// `now_serving`, of `bits` bits.
#[inline(always)]
pub fn operation(bits: u8, phase: Phase) -> Option<Operation>
    requires least { 2 ≤ bits }
    requires most { bits ≤ 64 }
    ensures { result ≡ operation bits phase }
{
    match phase {
        TakeTicket => Some(Operation::FetchAndAdd { word: 0, addend: 1 }),
        AwaitTurn(_) | ReadServing(_) => Some(Operation::Read { word: 1 }),
        // no fetch-and-add is needed: only the holder writes this word
        PassOn(serving) => Some(Operation::Write {
            word: 1,
            value: sum(bits, serving, 1),
        }),
        _ => None,
    }
}

/// Returns the next phase, the outcome and the entries, by the answer of the phase's operation. An
/// acquire acts at its fetch-and-add, and returns at the read that finds its ticket. A release acts
/// and returns at its last step.
#[inline(always)]
pub fn after(phase: Phase, answer: Answer) -> Next
    ensures { (t : ℕ) (ws : List ℕ) → Makes ws t result (after t phase answer ws) }
{
    match (phase, answer) {
        (TakeTicket, Found(ticket)) => (AwaitTurn(ticket), Moved, Act(Op::Acquire)),
        // `==` and not `>=`: tickets wrap
        (AwaitTurn(ticket), Found(serving)) if serving == ticket => {
            (TicketInside(ticket), Entered, Return(Op::Acquire))
        }
        (ReadServing(_), Found(serving)) => (PassOn(serving), Moved, Nothing),
        (PassOn(_), _) => (Idle, Left, ActAndReturn(Op::Release)),
        // a failed poll; in a phase without a step the machine refuses the move
        _ => (phase, Waits, Nothing),
    }
}
