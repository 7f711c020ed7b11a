//! The ticket lock of Mellor-Crummey and Scott, "Algorithms for Scalable Synchronization on
//! Shared-Memory Multiprocessors", ACM TOCS 9(1), 1991, section 2.2, on two shared words, stepped
//! by the caller's own threads.
//!
//! Different here: an acquire is `take` and then `look` until it returns true, and a release is
//! `read_serving` and `pass`. Each of these calls is one atomic operation, so nothing spins, and a
//! caller can do what it likes between two steps. A `LiveSeat` is a thread of the lock, which
//! `split` makes and `join` takes away. A waiting seat that is dropped keeps its ticket: no later
//! one is served.

ghost use Rattle.std.specs.Prelude.{◌≡◌, ◌+◌, ◌^◌, ◌<◌, ◌≤◌, ◌==◌, map, max, if◌then◌else◌, []};
ghost use Rattle.std.specs.Prelude.{◌∷◌, IfOk};
ghost use Rattle.lk_locks.specs.declared.kinds.Outcome.TheVariants.{Moved, Waits, Entered, Left};
ghost use Rattle.lk_locks.specs.declared.kinds.Phase.TheVariants as phase;
ghost use Rattle.lk_locks.specs.laws.{after, Found, Nothing};
ghost use Rattle.lk_workers.specs.declared.live.LivePhase.TheVariants.{Idle, Waiting, Inside};
ghost use Rattle.lk_workers.specs.declared.live.LivePhase.TheVariants.{Leaving};
ghost use Rattle.lk_workers.specs.Seats.{Live, seat_with, new_seat, ticket_in, with_seen};
ghost use Rattle.lk_workers.specs.Seats.{AreApart};
ghost use Rattle.lk_workers.specs.LockState.{IsEnd, LeadsTo};
ghost use Rattle.lk_workers.specs.SeatSteps.{take_step, look_step, read_step, pass_step};
ghost use Rattle.lk_workers.specs.SeatSteps.{seat_after, join_of, rest_of, share_of};
ghost use Rattle.atomic_table.specs.Seated.{TableId};

pub mod laws;
mod rule;

use crate::amount::{Amount, SplitOff};
use atomic_table::{Seat, Table};
use rule::{
    Inspect, LiveWords, Look, Merge, Pass, ReadServing, SideBySide, Take, TicketRule, View,
};
use std::alloc::{AllocError, Global};
use std::marker::{Brand, Model};

/// The place of a seat in its acquire and release.
#[derive(Clone, Copy, PartialEq, Eq, Debug)]
pub enum LivePhase {
    /// It has no ticket.
    Idle,
    /// It took a ticket, and was not served yet.
    Waiting,
    /// It holds the lock.
    Inside,
    /// It holds the lock, and has read the ticket that is served.
    Leaving,
}

/// A ticket lock on two shared words, `next_ticket` and `now_serving`, which both begin at 0.
#[derive(Drop)]
pub struct LiveTicket {
    table: Table<(), View, u64, TicketRule, Global>,
}

impl Model for LiveTicket {
    ghost Value = { TableId };

    ghost view = { λ t. t.table.shared.table_id };

    ghost invariant = { λ t.
        (t.table.shared.table_id.words ≡ 2) × (t.table.shared.table_id.slots ≡ 0) };
}

/// A thread of one lock, as far as the lock is concerned.
#[derive(Drop)]
pub struct LiveSeat {
    seat: Seat<(), View>,
    phase: LivePhase,
    ticket: u64,
    left: u64,
    taken: u64,
    seen: u64,
}

impl Model for LiveSeat {
    ghost Value = { Live };

    ghost view = { λ s. record {
      table = s.seat.table_id;
      state = seat_with s.phase s.ticket s.left s.taken s.seen s.seat.me.0;
    } };

    ghost invariant = { λ s.
        (s.seat.me ≡ (seat_with s.phase s.ticket s.left s.taken s.seen s.seat.me.0 ∷ [], []))
        × (s.ticket < 2 ^ 40) };
}

impl LiveSeat {
    // A seat that has taken no ticket yet.
    fn idle(seat: Seat<(), View>, left: u64, seen: u64) -> LiveSeat
        requires { seat.me ≡ (new_seat left seen ∷ [], []) }
        ensures { (result.table ≡ seat.table_id)
            × (result.state ≡ new_seat left seen) }
    {
        LiveSeat {
            seat,
            phase: LivePhase::Idle,
            ticket: 0,
            left,
            taken: 0,
            seen,
        }
    }

    /// The place of the seat in its acquire and release.
    pub fn phase(&self) -> LivePhase
        ensures { result ≡ self.now.state.phase }
    {
        self.phase
    }

    /// Its ticket, if it is not idle.
    pub fn ticket(&self) -> Option<u64>
        ensures { result ≡ ticket_in self.now.state.phase self.now.state.ticket }
    {
        match self.phase {
            LivePhase::Idle => None,
            LivePhase::Waiting | LivePhase::Inside | LivePhase::Leaving => Some(self.ticket),
        }
    }

    /// The number of tickets that it may still take.
    pub fn left(&self) -> u64
        ensures { result ≡ self.now.state.left }
    {
        self.left
    }

    /// The number of tickets that it and the seats joined into it took.
    pub fn taken(&self) -> u64
        ensures { result ≡ self.now.state.taken }
    {
        self.taken
    }

    /// The last `now_serving` that it knows of.
    pub fn seen(&self) -> u64
        ensures { result ≡ self.now.state.seen }
    {
        self.seen
    }
}

fn split_off<A: Amount>(words: &LiveWords, seat: &mut Seat<(), View>, amount: u64) -> Seat<(), View>
    requires amount { amount ≡ A.amount }
    requires own { (seat.old.table_id ≡ words.now.table_id) × (0 < words.now.table_id.words) }
    requires left { (r : _) × (seat.old.me.0 ≡ r ∷ []) × (amount ≤ r.left) }
    ensures kept { (seat.new.table_id ≡ seat.old.table_id)
        × (seat.new.me ≡ (map (rest_of amount) seat.old.me.0, seat.old.me.1)) }
    ensures given { (result.table_id ≡ seat.old.table_id)
        × (result.me ≡ (map (share_of amount) seat.old.me.0, [])) }
{
    words.split_seat::<SplitOff<A>>(seat)
}

impl LiveTicket {
    /// A lock that nobody holds, and its first seat, which may take this many tickets.
    ///
    /// # Errors
    ///
    /// There was no memory for the words.
    pub fn open(alloc: Global, takes: u64) -> Result<(LiveTicket, LiveSeat), AllocError>
        requires { takes ≤ 2 ^ 40 }
        ensures { IfOk result
            (λ r. (r.1.table ≡ r.0) × (r.1.state ≡ new_seat takes 0)) }
    {
        let (table, seat) = Table::of_words(alloc, &[0, 0], &takes)?;
        Ok((LiveTicket { table }, LiveSeat::idle(seat, takes, 0)))
    }

    /// Takes a ticket, which no other seat has: a fetch-and-add on `next_ticket`.
    pub fn take(&self, seat: &mut LiveSeat) -> u64
        requires own { seat.old.table ≡ self.now }
        requires idle { (seat.old.state.phase ≡ Idle) × (0 < seat.old.state.left) }
        ensures own { seat.new.table ≡ self.now }
        ensures seat { seat.new.state ≡ seat_after take_step seat.old.state result }
        ensures seen { seat.old.state.seen ≤ result }
        ensures event { LeadsTo (λ i. after i phase.TakeTicket (Found result))
            seat.new.state Moved }
    {
        let ticket = self.table.shared.fetch_add::<Take>(&mut seat.seat, 0, 1);
        seat.phase = LivePhase::Waiting;
        seat.ticket = ticket;
        seat.left -= 1;
        seat.taken += 1;
        ticket
    }

    /// Returns whether the seat's ticket is served; if so, the seat is inside: a load of
    /// `now_serving`.
    pub fn look(&self, seat: &mut LiveSeat) -> bool
        requires own { seat.old.table ≡ self.now }
        requires waiting { seat.old.state.phase ≡ Waiting }
        ensures own { seat.new.table ≡ self.now }
        ensures seat { seat.new.state ≡ seat_after look_step seat.old.state seat.new.state.seen }
        ensures later { seat.old.state.seen ≤ seat.new.state.seen }
        ensures answer { result ≡ (seat.new.state.seen == seat.old.state.ticket) }
        ensures event { LeadsTo
            (λ i. after i (phase.AwaitTurn seat.old.state.ticket) (Found seat.new.state.seen))
            seat.new.state (if result then Entered else Waits) }
    {
        let serving = self.table.shared.load::<Look>(&mut seat.seat, 1);
        seat.seen = serving;
        let served = serving == seat.ticket;
        if served {
            seat.phase = LivePhase::Inside;
        }
        served
    }

    /// Begins to release, and finds the seat's own ticket served: a load of `now_serving`.
    pub fn read_serving(&self, seat: &mut LiveSeat)
        requires own { seat.old.table ≡ self.now }
        requires inside { seat.old.state.phase ≡ Inside }
        ensures own { seat.new.table ≡ self.now }
        ensures seat { seat.new.state ≡ seat_after read_step seat.old.state seat.old.state.ticket }
        ensures event { LeadsTo
            (λ i. after i (phase.ReadServing seat.old.state.ticket) (Found seat.new.state.seen))
            seat.new.state Moved }
    {
        let serving = self.table.shared.load::<ReadServing>(&mut seat.seat, 1);
        seat.seen = serving;
        seat.phase = LivePhase::Leaving;
    }

    /// Hands the lock on to the next ticket: a store of the value read plus one to `now_serving`.
    pub fn pass(&self, seat: &mut LiveSeat)
        requires own { seat.old.table ≡ self.now }
        requires leaving { seat.old.state.phase ≡ Leaving }
        ensures own { seat.new.table ≡ self.now }
        ensures seat { seat.new.state ≡ seat_after pass_step seat.old.state seat.old.state.ticket }
        ensures event { LeadsTo (λ i. after i (phase.PassOn seat.old.state.ticket) Nothing)
            seat.new.state Left }
    {
        let next = seat.ticket + 1;
        self.table.shared.store::<Pass>(&mut seat.seat, 1, next);
        seat.phase = LivePhase::Idle;
        seat.ticket = 0;
        seat.seen = next;
    }

    /// A second seat, idle, which may take this many of the first one's tickets.
    pub fn split(&self, seat: &mut LiveSeat, left: u64) -> LiveSeat
        requires own { seat.old.table ≡ self.now }
        requires idle { (seat.old.state.phase ≡ Idle) × (left ≤ seat.old.state.left) }
        ensures kept { (seat.new.table ≡ self.now)
            × (seat.new.state ≡ rest_of left seat.old.state) }
        ensures given { (result.table ≡ self.now) × (result.state ≡ share_of left seat.old.state) }
    {
        let other = split_off::<Brand>(&self.table.shared, &mut seat.seat, left);
        seat.left -= left;
        LiveSeat::idle(other, left, seat.seen)
    }

    /// Makes two idle seats one, with what both took and have left.
    pub fn join(&self, seat: &mut LiveSeat, other: LiveSeat)
        requires own { (seat.old.table ≡ self.now) × (other.table ≡ self.now) }
        requires idle { (seat.old.state.phase ≡ Idle) × (other.state.phase ≡ Idle) }
        ensures own { seat.new.table ≡ self.now }
        ensures seat { seat.new.state ≡ join_of seat.old.state other.state }
    {
        self.table
            .shared
            .join_seat::<Merge>(&mut seat.seat, other.seat);
        // A load only for the invariant's bound on the sums: it is available at an atomic step.
        self.table.shared.load::<Inspect>(&mut seat.seat, 0);
        seat.ticket = 0;
        seat.left += other.left;
        seat.taken += other.taken;
        seat.seen = seat.seen.max(other.seen);
    }

    /// Compares two seats, and gives the second one back: not both hold the lock, and their tickets
    /// differ.
    pub fn apart(&self, seat: &mut LiveSeat, mut other: LiveSeat) -> LiveSeat
        requires own { (seat.old.table ≡ self.now) × (other.table ≡ self.now) }
        ensures own { (seat.new.table ≡ self.now) × (result.table ≡ self.now) }
        ensures first { seat.new.state
            ≡ with_seen (max seat.old.state.seen other.state.seen) seat.old.state }
        ensures second { result.state
            ≡ with_seen (max seat.old.state.seen other.state.seen) other.state }
        ensures apart { AreApart seat.new.state result.state }
    {
        let words = &self.table.shared;
        words.join_seat::<SideBySide>(&mut seat.seat, other.seat);
        words.load::<Inspect>(&mut seat.seat, 0);
        other.seat = words.split_seat::<SideBySide>(&mut seat.seat);
        seat.seen = seat.seen.max(other.seen);
        other.seen = seat.seen;
        other
    }

    /// `next_ticket` and `now_serving` at the end. They are equal if the seat took all tickets.
    pub fn close(self, seat: LiveSeat) -> (u64, u64)
        requires own { seat.table ≡ self }
        requires idle { seat.state.phase ≡ Idle }
        // they are the words of the last state, in which the seat is as it was
        ensures words { IsEnd result.0 result.1 seat.state }
        ensures order { result.1 ≤ result.0 }
        ensures taken { seat.state.taken ≤ result.0 }
        ensures all { seat.state.taken ≡ result.0 → result.1 ≡ result.0 }
    {
        let closed = self.table.close_with(seat.seat);
        let next = closed.word(0);
        let serving = closed.word(1);
        closed.free();
        (next, serving)
    }
}
