//! The laws of starvation are evaluated on runs that are written out. A law that came to say
//! nothing would hold of all of them, or of none.
//!
//! Each function's contract evaluates definitions of `specs/Starvation.antt`, and its body is
//! empty.

ghost use Rattle.std.specs.Prelude.{◌≡◌, ℕ, ◌++◌, []};
ghost use Rattle.lk_tests.specs.WorkedWaits.{ticket_waits, ticket_round, passed_over, mcs_waits};
ghost use Rattle.lk_tests.specs.WorkedWaits.{mcs_round, cut_off, alone, fifo_waits, fifo_round};
ghost use Rattle.lk_tests.specs.WorkedWaits.{unflagged, writer_waits, handed_on};
ghost use Rattle.lk_locks.specs.Progress.{is_failed_poll};
ghost use Rattle.lk_locks.specs.Starvation.{IsInQueue, IsShortWait, KeepsWaiting, CanStarve};
ghost use Rattle.lk_locks.specs.Starvation.{count_in, goes_on};
ghost use Rattle.lk_locks.specs.declared.kinds.LockKind.TheVariants.{Ticket, Mcs, RwFifo};
ghost use Rattle.lk_locks.specs.declared.kinds.Phase.TheVariants.{AwaitTurn, AwaitGrant};
ghost use Rattle.lk_locks.specs.declared.kinds.Phase.TheVariants.{AwaitReaders, TryWrite};

/// A thread waits through moves until it enters. Its failed polls are not counted.
pub fn waiting_threads()
    ensures ticket { KeepsWaiting IsInQueue 1 ticket_waits ticket_round }
    ensures another_waits { KeepsWaiting IsInQueue 0 ticket_waits ticket_round → ⊥ }
    ensures mcs { KeepsWaiting IsInQueue 1 mcs_waits mcs_round }
    ensures fifo { KeepsWaiting IsInQueue 1 fifo_waits fifo_round }
    ensures reader { KeepsWaiting IsInQueue 0 fifo_waits [] → ⊥ }
    ensures writer { KeepsWaiting (λ now. now ≡ TryWrite) 2 writer_waits handed_on }
    ensures polls { count_in (λ s t m. is_failed_poll s t m) writer_waits handed_on ≡ 2 }
    ensures others { count_in goes_on writer_waits handed_on ≡ 4 }
{}

/// The bound of each lock is reached beside one other thread, and after a mistake exceeded.
pub fn short_waits()
    ensures ticket { IsShortWait 6 ticket_waits 1 ticket_round }
    ensures no_fewer_tickets { IsShortWait 5 ticket_waits 1 ticket_round → ⊥ }
    ensures passed_over { IsShortWait 6 passed_over 1 (ticket_round ++ ticket_round) → ⊥ }
    ensures mcs { IsShortWait 13 mcs_waits 1 mcs_round }
    ensures no_fewer_swaps { IsShortWait 12 mcs_waits 1 mcs_round → ⊥ }
    ensures cut_off { IsShortWait 13 cut_off 1 (alone ++ alone ++ alone) → ⊥ }
    ensures fifo { IsShortWait 3 fifo_waits 1 fifo_round }
    ensures no_fewer_readers { IsShortWait 2 fifo_waits 1 fifo_round → ⊥ }
    ensures unflagged { IsShortWait 3 unflagged 1 fifo_round → ⊥ }
{}

/// A thread in a queue, which does not starve, cannot.
pub fn threads_that_cannot_starve()
    ensures ticket { (ticket : ℕ) → CanStarve Ticket (AwaitTurn ticket) → ⊥ }
    ensures mcs { CanStarve Mcs AwaitGrant → ⊥ }
    ensures fifo { CanStarve RwFifo AwaitReaders → ⊥ }
{}
