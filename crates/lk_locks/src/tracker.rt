//! A lock with its sequential object: after each move it knows its holders and its queue. It keeps
//! no history and takes no memory; `Keeper` adds the history.

ghost use Rattle.std.specs.Prelude.{◌≡◌, ◌<◌, ◌↔◌, [], IfOk, IfSome, None};
ghost use Rattle.lk_locks.specs.Change.{entries_by};
ghost use Rattle.lk_locks.specs.Holding.{holder_after, as_holding, IsListed};
ghost use Rattle.lk_locks.specs.Play.{Tracked, tracker_of, tracker_after, holding_in, waiting_in};
ghost use Rattle.lk_locks.specs.invariants.Kept.{IsRecorded, IsTracked};
ghost use Rattle.lk_locks.specs.State.{start_of};
ghost use Rattle.lk_locks.specs.Sequential.{nobody};
ghost use Rattle.lk_locks.specs.Steps.{change_of, next_state, refusal_of, refused_with};
ghost use Rattle.lk_locks.specs.Progress.{IsFinishing, IsAtRest};
ghost use Rattle.lk_locks.specs.invariants.Distance.{distance_of};

use crate::entries::Added;
use crate::holders::copy_of;
use crate::locks::family_of;
use crate::{
    Entry, Family, Holders, LockKind, Machine, Move, Op, Outcome, Refusal, SeqLock, Shape,
};
use arrayvec::ArrayVec;
use lk_words::{WordArray, Words};
use std::marker::Model;

/// The machine, the sequential object and, for a queue lock, the thread whose acquire returned
/// last, up to its release.
#[derive(Drop)]
pub struct Tracker<W: Words> {
    machine: Machine<W>,
    sequential: SeqLock,
    holder: Option<u8>,
}

impl<W: Words> Model for Tracker<W> {
    ghost Value = { Tracked };

    ghost view = { λ a. record {
      state = a.machine;
      sequential = a.sequential;
      holder = a.holder;
    } };

    ghost invariant = { λ a. IsTracked a.machine a.sequential };
}

impl Tracker<WordArray> {
    /// A new lock of this shape.
    pub fn at_start(shape: Shape) -> Tracker<WordArray>
        ensures start { result ≡ tracker_of (start_of shape) [] }
        ensures recorded { IsRecorded result [] }
    {
        Tracker::of_new(Machine::at_start(shape))
    }

    /// Returns a move that brings the lock nearer to rest: it is accepted, and is neither a call
    /// for the lock nor a failed poll. There is none if and only if all threads are idle.
    pub fn finishing_move(&self) -> Option<(u8, Move)>
        ensures finishing { IfSome result (λ found. IsFinishing self.now.state found.0 found.1) }
        ensures nearer { IfSome result (λ found.
            distance_of (next_state self.now.state found.0 found.1) < distance_of self.now.state) }
        ensures none { result ≡ None ↔ IsAtRest self.now.state }
    {
        self.machine.finishing_move()
    }
}

impl<W: Words> Tracker<W> {
    // The tracker of a lock on which nothing was played.
    pub(crate) fn of_new(machine: Machine<W>) -> Tracker<W>
        requires { IsTracked machine (nobody machine.kind) }
        ensures { result ≡ tracker_of machine [] }
    {
        let sequential = SeqLock::new(machine.kind());
        Tracker {
            machine,
            sequential,
            holder: None,
        }
    }

    /// Makes the move, and returns its outcome and the entries that it adds to a history.
    ///
    /// # Errors
    ///
    /// The first refusal that applies. Then nothing has changed.
    #[inline]
    pub fn play(&mut self, t: u8, m: Move) -> Result<(Outcome, Added), Refusal>
        ensures refused { refused_with result ≡ refusal_of self.old.state t m }
        ensures outcome { IfOk result
            (λ played. played.0 ≡ (change_of self.old.state t m).outcome) }
        ensures entries { IfOk result
            (λ played. entries_by t played.1 ≡ (change_of self.old.state t m).entries) }
        ensures after { self.new ≡ tracker_after self.old t m }
    {
        let (outcome, added) = self.machine.play(t, m)?;
        // a call is no act, so the sequential object and the holder stay
        if let Move::Step(_) = m {
            let entries = added.entries(t);
            self.sequential.follow(entries.as_slice());
            self.holder = holder_after(self.holder, entries.as_slice());
        }
        Ok((outcome, added))
    }

    /// The machine alone: its words, its phases, and the refusals that it would give.
    pub fn machine(&self) -> &Machine<W>
        ensures { result.now ≡ self.now.state }
    {
        &self.machine
    }

    /// The lock's kind.
    pub fn kind(&self) -> LockKind
        ensures { result ≡ self.now.state.kind }
    {
        self.machine.kind()
    }

    /// The present holders. A thread with a pending release of a queue lock still holds it.
    pub fn holders(&self) -> Holders
        ensures holding { as_holding result ≡ holding_in self.now }
        ensures listed { IsListed (as_holding result) }
    {
        match family_of(self.machine.kind()) {
            Family::Queue => match self.holder {
                Some(t) => Holders::Holder(t),
                None => Holders::Nobody,
            },
            Family::ReadWrite | Family::FifoReadWrite => match self.sequential.writer() {
                Some(t) => Holders::Writer(t),
                None if self.sequential.readers().is_empty() => Holders::Nobody,
                None => Holders::Readers(copy_of(self.sequential.readers())),
            },
        }
    }

    /// The threads in the queue: the requests of a queue lock, oldest first, the holder's too; the
    /// announced writer of a FIFO lock; none of a simple lock.
    pub fn queue(&self) -> ArrayVec<u8, 64>
        ensures { result.items ≡ waiting_in self.now }
    {
        match family_of(self.machine.kind()) {
            Family::Queue => copy_of(self.sequential.queue()),
            Family::ReadWrite => ArrayVec::new(),
            Family::FifoReadWrite => match self.sequential.announced() {
                Some(t) => copy_of(&[t]),
                None => ArrayVec::new(),
            },
        }
    }
}

// The holder of a queue lock after these entries.
fn holder_after(holder: Option<u8>, entries: &[Entry]) -> Option<u8>
    ensures { result ≡ holder_after holder entries.now }
{
    let mut now = holder;
    for entry in entries {
        match entry {
            Entry::Returned(t, Op::Acquire) => now = Some(*t),
            Entry::Acted(_, Op::Release) => now = None,
            _ => {}
        }
    }
    now
}
