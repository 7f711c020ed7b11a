//! Enums and structs: each enum matched with no wildcard, each public field named, and each derive
//! asked for.

ghost use Rattle.std.specs.Prelude.{◌≡◌};
ghost use Rattle.lk_replay.specs.Ending.{status_of};

use lk_locks::{Act, Entry, LockKind, Move, Op, Outcome, Phase, PlayFault, Refusal, StepKind};
use lk_replay::{Accepted, Ending, Line, ReadFault, RunFault};
use lk_workers::LivePhase;
use std::fmt::Debug;

// What an enum derives whose variants hold nothing, numbers, or other such enums.
fn is_plain<T: Clone + Copy + PartialEq + Eq + Debug>() {}

/// Asks each such enum for its derives.
pub fn plain_enums() {
    is_plain::<LockKind>();
    is_plain::<Op>();
    is_plain::<StepKind>();
    is_plain::<Move>();
    is_plain::<Outcome>();
    is_plain::<Entry>();
    is_plain::<Act>();
    is_plain::<Phase>();
    is_plain::<Refusal>();
    is_plain::<PlayFault>();
    is_plain::<ReadFault>();
    is_plain::<Ending>();
    is_plain::<RunFault>();
    is_plain::<LivePhase>();
}

/// Returns whether the lock has one holder at a time.
pub fn is_queue_lock(kind: LockKind) -> bool {
    match kind {
        LockKind::Ticket | LockKind::Mcs => true,
        LockKind::RwSimple | LockKind::RwFifo => false,
    }
}

/// Returns whether the operation ends in a release.
pub fn releases(op: Op) -> bool {
    match op {
        Op::Release | Op::ReadUnlock | Op::WriteUnlock => true,
        Op::Acquire | Op::ReadLock | Op::WriteLock | Op::Downgrade => false,
    }
}

/// Returns whether the move leaves the words as they are, whatever they hold.
pub fn only_looks(action: Move) -> bool {
    match action {
        Move::Call(_) | Move::Step(StepKind::Read) => true,
        Move::Step(
            StepKind::Write | StepKind::Swap | StepKind::Cas | StepKind::Add | StepKind::Section,
        ) => false,
    }
}

/// Returns whether the call is over.
pub fn is_over(outcome: Outcome) -> bool {
    match outcome {
        Outcome::Entered | Outcome::Left => true,
        Outcome::Called | Outcome::Moved | Outcome::Waits => false,
    }
}

/// Returns the thread of an entry, and its operation, if it is of one.
pub fn parts_of_entry(entry: Entry) -> (u8, Option<Op>) {
    match entry {
        Entry::Called(thread, op) | Entry::Acted(thread, op) | Entry::Returned(thread, op) => {
            (thread, Some(op))
        }
        Entry::Announced(thread) => (thread, None),
    }
}

/// Returns the thread that acts.
pub fn actor(act: Act) -> u8 {
    use Act::{
        Acquire, Announce, Downgrade, ReadLock, ReadUnlock, Release, WriteLock, WriteUnlock,
    };
    match act {
        Acquire(thread)
        | Release(thread)
        | ReadLock(thread)
        | ReadUnlock(thread)
        | Announce(thread)
        | WriteLock(thread)
        | WriteUnlock(thread)
        | Downgrade(thread) => thread,
    }
}

/// Returns the ticket, or the value read, in a phase of a ticket lock, and the neighbour in the
/// queue in one of an MCS lock.
pub fn numbers_in(phase: Phase) -> (Option<u64>, Option<u8>) {
    use Phase::{AwaitGrant, AwaitLink, AwaitReaders, AwaitTurn, CasTail, ClearNext, Grant, Idle};
    use Phase::{LeaveRead, LeaveWrite, LinkTo, McsInside, PassOn, ReadNext, ReadServing, Reading};
    use Phase::{SetLocked, SwapTail, TakeTicket, TicketInside, TryDowngrade, TryRead, TryWrite};
    use Phase::Writing;
    match phase {
        AwaitTurn(word) | TicketInside(word) | ReadServing(word) | PassOn(word) => {
            (Some(word), None)
        }
        SetLocked(thread) | LinkTo(thread) | Grant(thread) => (None, Some(thread)),
        Idle
        | TakeTicket
        | ClearNext
        | SwapTail
        | AwaitGrant
        | McsInside
        | ReadNext
        | CasTail
        | AwaitLink
        | TryRead
        | Reading
        | LeaveRead
        | TryWrite
        | AwaitReaders
        | Writing
        | LeaveWrite
        | TryDowngrade => (None, None),
    }
}

/// Returns the step that was due in the place of a refused one.
pub fn step_due(fault: PlayFault) -> Option<StepKind> {
    use Refusal::{AlreadyHolds, Busy, NoCall, NoSuchThread, NotHolder, WrongLock, WrongStep};
    match fault {
        PlayFault::Refused(WrongStep { next }) => Some(next),
        PlayFault::Refused(NoSuchThread | WrongLock | Busy | NotHolder | AlreadyHolds | NoCall)
        | PlayFault::OutOfMemory => None,
    }
}

/// Returns the line of a fault of a text, if it is of a line.
pub fn line_of(fault: ReadFault) -> Option<u32> {
    match fault {
        ReadFault::NoHeader(line)
        | ReadFault::BadHeader(line)
        | ReadFault::BadThreads(line)
        | ReadFault::BadLine(line)
        | ReadFault::TooManyMoves(line)
        | ReadFault::WordsTooNarrow(line) => Some(line),
        ReadFault::TooLong | ReadFault::OutOfMemory => None,
    }
}

/// Returns the move of a schedule that was accepted with this outcome.
pub fn accepted_with(line: Line, outcome: Outcome) -> Accepted {
    let Line {
        number,
        thread,
        action,
    } = line;
    Accepted {
        line: number,
        thread,
        action,
        outcome,
    }
}

/// Returns the status of a run, as `status_of` does.
pub fn status(ran: Result<Ending, RunFault>) -> u8
    ensures { result ≡ status_of ran }
{
    match ran {
        Ok(Ending::Accepted) => 0,
        Ok(Ending::Refused | Ending::Faulty) => 1,
        Err(RunFault::Read | RunFault::Write | RunFault::OutOfMemory) => 3,
    }
}

/// Returns whether a seat in this phase holds the running lock.
pub fn is_holding(phase: LivePhase) -> bool {
    match phase {
        LivePhase::Inside | LivePhase::Leaving => true,
        LivePhase::Idle | LivePhase::Waiting => false,
    }
}
