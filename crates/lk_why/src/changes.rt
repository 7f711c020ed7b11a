//! The changes of each lock.

ghost use Rattle.std.specs.List.{AllByRecursion};
ghost use Rattle.lk_why.specs.Listed.{IsOfStep};

use crate::{Change, mcs, rw_fifo, rw_simple, ticket};
use lk_locks::LockKind;

/// All changes of a lock, in the order of its code. Each is of a step that the lock has.
pub fn changes_of(kind: LockKind) -> &'static [Change]
    ensures { AllByRecursion (IsOfStep kind) result.now }
{
    match kind {
        LockKind::Ticket => &ticket::CHANGES,
        LockKind::Mcs => &mcs::CHANGES,
        LockKind::RwSimple => &rw_simple::CHANGES,
        LockKind::RwFifo => &rw_fifo::CHANGES,
    }
}
