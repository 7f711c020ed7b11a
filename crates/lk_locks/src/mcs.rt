//! The MCS queue lock: its calls, and its atomic steps, each on one word of the tail and the
//! threads' records.
//!
//! Mellor-Crummey and Scott, "Algorithms for Scalable Synchronization on Shared-Memory
//! Multiprocessors", ACM TOCS 9(1), 1991, section 2.4, with the release that has compare-and-swap.
//! Different here: each thread has one record, and thread `i`'s is record `i + 1`, so that 0 is
//! nil; the last write of a release uses the successor that was read last.
//!
//! In contracts `after_call`, `operation` and `after` are the definitions of `specs/mcs.antt`.

ghost use Rattle.std.specs.Prelude.{◌≡◌, ◌+◌, ◌-◌, ◌<◌, ◌≤◌, ℕ, List};
ghost use Rattle.lk_locks.specs.Change.{Makes};
ghost use Rattle.lk_locks.specs.mcs.{next, locked, after_call, operation, after};
ghost use Rattle.lk_locks.specs.invariants.mcs.{IsInRange};

use crate::Outcome::{Entered, Left, Moved, Waits};
use crate::Phase::{
    AwaitGrant, AwaitLink, CasTail, ClearNext, Grant, Idle, LinkTo, McsInside, ReadNext, SetLocked,
    SwapTail,
};
use crate::entries::Added::{Act, ActAndReturn, Nothing, Return};
use crate::entries::Next;
use crate::{Op, Phase};
use lk_words::Answer::{Found, Swapped};
use lk_words::{Answer, Operation};

const TAIL: usize = 0;

const NIL: u64 = 0;

// The thread whose record this link names; it is not nil.
fn owner_of(link: u64) -> u8
    requires least { 0 < link }
    requires most { link ≤ 64 }
    ensures { result ≡ link - 1 }
{
    (link - 1) as u8
}

// The index of a thread's `next`.
fn next(thread: u8) -> usize
    ensures { result ≡ next thread }
{
    1 + 2 * thread as usize
}

// The index of a thread's `locked`.
fn locked(thread: u8) -> usize
    ensures { result ≡ locked thread }
{
    2 + 2 * thread as usize
}

/// The phase that a call leads to, if a thread in this phase may make it.
#[inline(always)]
pub fn after_call(phase: Phase, op: Op) -> Option<Phase>
    ensures { result ≡ after_call phase op }
{
    match (phase, op) {
        (Idle, Op::Acquire) => Some(ClearNext),
        (McsInside, Op::Release) => Some(ReadNext),
        _ => None,
    }
}

/// The next operation of a thread in this phase, on one word.
#[inline(always)]
pub fn operation(thread: u8, phase: Phase) -> Option<Operation>
    ensures { result ≡ operation thread phase }
{
    let record = thread as u64 + 1;
    match phase {
        // a link of an earlier call may be here; after the swap it would pass for a successor's
        ClearNext => Some(Operation::Write {
            word: next(thread),
            value: NIL,
        }),
        SwapTail => Some(Operation::Swap {
            word: TAIL,
            value: record,
        }),
        // before the link: a linked thread may be granted the lock, and a later 1 would undo that
        SetLocked(_) => Some(Operation::Write {
            word: locked(thread),
            value: 1,
        }),
        LinkTo(predecessor) => Some(Operation::Write {
            word: next(predecessor),
            value: record,
        }),
        AwaitGrant => Some(Operation::Read {
            word: locked(thread),
        }),
        ReadNext | AwaitLink => Some(Operation::Read { word: next(thread) }),
        CasTail => Some(Operation::CompareAndSwap {
            word: TAIL,
            old: record,
            new: NIL,
        }),
        Grant(successor) => Some(Operation::Write {
            word: locked(successor),
            value: 0,
        }),
        _ => None,
    }
}

/// Returns the next phase, the outcome and the entries, by the answer of the phase's operation. An
/// acquire acts at its swap, and returns when it enters. A release acts and returns at its last
/// step.
#[inline(always)]
pub fn after(phase: Phase, answer: Answer) -> Next
    requires { IsInRange phase answer }
    ensures { (t : ℕ) (ws : List ℕ) → Makes ws t result (after t phase answer ws) }
{
    match (phase, answer) {
        (ClearNext, _) => (SwapTail, Moved, Nothing),
        (SwapTail, Found(0)) => (McsInside, Entered, ActAndReturn(Op::Acquire)),
        (SwapTail, Found(link)) => (SetLocked(owner_of(link)), Moved, Act(Op::Acquire)),
        (SetLocked(predecessor), _) => (LinkTo(predecessor), Moved, Nothing),
        (LinkTo(_), _) => (AwaitGrant, Moved, Nothing),
        (AwaitGrant, Found(0)) => (McsInside, Entered, Return(Op::Acquire)),
        (ReadNext, Found(0)) => (CasTail, Moved, Nothing),
        (ReadNext | AwaitLink, Found(link)) if link != 0 => (Grant(owner_of(link)), Moved, Nothing),
        // Another thread has swapped the tail, perhaps without linking itself yet. Until it does,
        // this record does not name it: a release that returned now would grant to nobody.
        (CasTail, Swapped(false)) => (AwaitLink, Moved, Nothing),
        // if the compare-and-swap succeeds, nobody came after this thread: the queue is empty again
        (CasTail, Swapped(true)) | (Grant(_), _) => (Idle, Left, ActAndReturn(Op::Release)),
        // a failed poll; in a phase without a step the machine refuses the move
        _ => (phase, Waits, Nothing),
    }
}
