//! Laws of every legal history, and of every list of moves: each function's contract is one law,
//! and its body is empty.
//!
//! `Keeper::entries` ensures that what a keeper recorded is legal, so each law holds of every
//! keeper's entries.

ghost use Rattle.std.specs.Prelude.{None, is_none, ℕ, ◌≡◌};
ghost use Rattle.lk_locks.specs.State.{State};
ghost use Rattle.lk_locks.specs.Steps.{accepts, refusal_of};
ghost use Rattle.lk_locks.specs.Types.{Move};
ghost use Rattle.lk_locks.specs.Legal.{OfEveryLegal};
ghost use Rattle.lk_locks.specs.MainTheorem.{EveryRunIsAsPromised};
ghost use Rattle.lk_locks.specs.Progress.{NoRunIsStuck};
ghost use Rattle.lk_locks.specs.Exclusion.{IsHeldInTurn, IsHeldByHead, HasOneHolder, HasOneWriter};
ghost use Rattle.lk_locks.specs.Exclusion.{IsNeverBesideReader, AnnouncedWriterGoesFirst};
ghost use Rattle.lk_locks.specs.Order.{IsInOrder};
ghost use Rattle.lk_locks.specs.Calls.{ActsOnce, ActsInCalls};
ghost use Rattle.lk_locks.specs.Starvation.{IsStarvationFree, CanStarve};
ghost use Rattle.lk_locks.specs.Types.{Ticket, Mcs, RwSimple, RwFifo, TryRead, TryWrite};

/// After any moves the history of a new lock is legal, and so there are never two holders or
/// writers, nor a writer beside a reader, and a queue lock is entered in the order of its tickets
/// or swaps.
pub fn every_run_is_as_promised()
    ensures { EveryRunIsAsPromised }
{}

/// After any moves on a new lock some thread can go on, unless all are idle: it has a move that is
/// accepted, and is neither a call for the lock nor a failed poll. Such moves are few, in any
/// order, and end at rest.
pub fn no_run_is_stuck()
    ensures { NoRunIsStuck }
{}

/// A move is accepted exactly if no refusal applies to it.
#[tactic(auto, using(crate::proofs::Acceptance::accepts_unless_refused))]
pub fn accepts_unless_refused()
    ensures { (s : State) (t : ℕ) (m : Move) → accepts s t m ≡ is_none (refusal_of s t m) }
{}

/// An acquire returns only if nobody holds the queue lock, and only its holder releases it.
#[tactic(auto, using(crate::proofs::QueueLaws::holders_take_turns))]
pub fn holders_take_turns()
    ensures { OfEveryLegal (λ kind. IsHeldInTurn None) }
{}

/// Between the returns of two acquires is the act of the first one's release.
#[tactic(auto, using(crate::proofs::QueueOrder::holders_are_apart))]
pub fn holders_are_apart()
    ensures { OfEveryLegal (λ kind. HasOneHolder) }
{}

/// The holder of a queue lock is the head of its queue.
#[tactic(auto, using(crate::proofs::QueueLaws::holder_is_head))]
pub fn holder_is_head()
    ensures { OfEveryLegal IsHeldByHead }
{}

/// A queue lock is entered in the order of its tickets or swaps.
#[tactic(auto, using(crate::proofs::QueueOrder::enters_in_order))]
pub fn enters_in_order()
    ensures { OfEveryLegal (λ kind. IsInOrder) }
{}

/// Between the acts of two writers the first stops writing.
#[tactic(auto, using(crate::proofs::SharedLaws::never_two_writers))]
pub fn never_two_writers()
    ensures { OfEveryLegal (λ kind. HasOneWriter) }
{}

/// Between the acts of a writer and a reader the first stops writing or reading, and at no moment
/// do the acts leave both.
#[tactic(auto, using(crate::proofs::SharedLaws::never_a_writer_beside_a_reader))]
pub fn never_a_writer_beside_a_reader()
    ensures { OfEveryLegal IsNeverBesideReader }
{}

/// No reader enters between a FIFO writer's announcement and its entering, and no other writer
/// announces itself.
#[tactic(auto, using(crate::proofs::SharedLaws::announced_writer_goes_first))]
pub fn announced_writer_goes_first()
    ensures { AnnouncedWriterGoesFirst }
{}

/// Each finished call has acted once, between its call and its return.
#[tactic(auto, using(crate::proofs::CallLaws::calls_act_once))]
pub fn calls_act_once()
    ensures { OfEveryLegal ActsOnce }
{}

/// Each act is in a call, whose return comes next.
pub fn acts_are_called()
    ensures { OfEveryLegal ActsInCalls }
{}

/// While a thread waits in the queue of a lock, as an announced writer does, the threads together
/// make few moves, failed polls aside: at most this number for each of the other threads.
pub fn nobody_in_a_queue_starves()
    ensures ticket { IsStarvationFree Ticket 6 }
    ensures mcs { IsStarvationFree Mcs 13 }
    ensures fifo { IsStarvationFree RwFifo 3 }
{}

/// Readers in turn can keep a writer of the simple lock out for ever, and writers in turn any
/// thread that waits for the flag of a read-write lock, though it polls again and again.
pub fn threads_in_no_queue_can_starve()
    ensures simple_writer { CanStarve RwSimple TryWrite }
    ensures simple_reader { CanStarve RwSimple TryRead }
    ensures fifo_reader { CanStarve RwFifo TryRead }
    ensures fifo_writer { CanStarve RwFifo TryWrite }
{}
