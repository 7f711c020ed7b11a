//! A change of one step of a lock.

ghost use Rattle.std.specs.Prelude.{◌≡◌};
ghost use Rattle.lk_why.specs.Changes.{name_of, how_at};

use lk_locks::Phase;

/// A phase in which a thread takes a step next, without its number.
#[derive(Clone, Copy, PartialEq, Eq, Debug)]
pub enum PhaseName {
    TakeTicket,
    AwaitTurn,
    ReadServing,
    PassOn,
    ClearNext,
    SwapTail,
    SetLocked,
    LinkTo,
    AwaitGrant,
    ReadNext,
    CasTail,
    AwaitLink,
    Grant,
    TryRead,
    LeaveRead,
    TryWrite,
    AwaitReaders,
    LeaveWrite,
    TryDowngrade,
}

/// The words that a step leaves as they were, though it would write them.
#[derive(Clone, Copy)]
pub enum Written {
    All,
    /// The flag of a read-write lock.
    Flag,
    /// The other words of a read-write lock.
    Counts,
}

/// The value that a test finds, whatever is there.
#[derive(Clone, Copy)]
pub enum Found {
    /// The word of the step is 0: nil, or granted.
    Zero,
    /// The word of the step is the thread's own: its ticket, or the number of its record.
    Own,
    /// The flag of a read-write lock is clear.
    ClearFlag,
    /// The counts of a read-write lock say that there is no reader.
    NoReader,
}

/// The kind of a change.
#[derive(Clone, Copy)]
pub enum How {
    /// These words are not written. What the step finds, it finds as ever.
    LeaveOut(Written),
    /// Its test goes as if it had found this.
    Find(Found),
    /// The release returns in place of the step, and leaves the words.
    Return,
    /// A section that would move on to a further poll waits instead, and writes nothing.
    Wait,
    /// A read-modify-write becomes a load, and a store of what it makes of the value loaded.
    Split,
    /// The step, a write, comes after the one that follows it.
    Exchange,
}

/// A change of one step of a lock.
#[derive(Clone, Copy)]
pub struct Change {
    /// The phase from which the step is taken.
    pub step: PhaseName,
    pub how: How,
}

/// The phase's name, if a thread in it takes a step next.
pub fn name_of(phase: Phase) -> Option<PhaseName>
    ensures { result ≡ name_of phase }
{
    match phase {
        Phase::TakeTicket => Some(PhaseName::TakeTicket),
        Phase::AwaitTurn(_) => Some(PhaseName::AwaitTurn),
        Phase::ReadServing(_) => Some(PhaseName::ReadServing),
        Phase::PassOn(_) => Some(PhaseName::PassOn),
        Phase::ClearNext => Some(PhaseName::ClearNext),
        Phase::SwapTail => Some(PhaseName::SwapTail),
        Phase::SetLocked(_) => Some(PhaseName::SetLocked),
        Phase::LinkTo(_) => Some(PhaseName::LinkTo),
        Phase::AwaitGrant => Some(PhaseName::AwaitGrant),
        Phase::ReadNext => Some(PhaseName::ReadNext),
        Phase::CasTail => Some(PhaseName::CasTail),
        Phase::AwaitLink => Some(PhaseName::AwaitLink),
        Phase::Grant(_) => Some(PhaseName::Grant),
        Phase::TryRead => Some(PhaseName::TryRead),
        Phase::LeaveRead => Some(PhaseName::LeaveRead),
        Phase::TryWrite => Some(PhaseName::TryWrite),
        Phase::AwaitReaders => Some(PhaseName::AwaitReaders),
        Phase::LeaveWrite => Some(PhaseName::LeaveWrite),
        Phase::TryDowngrade => Some(PhaseName::TryDowngrade),
        Phase::Idle | Phase::TicketInside(_) | Phase::McsInside | Phase::Reading | Phase::Writing =>
            None,
    }
}

/// The change of the step from this phase, if it is the one that is changed.
pub fn how_at(change: Option<Change>, phase: Phase) -> Option<How>
    ensures { result ≡ how_at change phase }
{
    let change = change?;
    if name_of(phase) == Some(change.step) {
        Some(change.how)
    } else {
        None
    }
}
