//! A lock with its sequential object and its history: each move of the machine is recorded, and the
//! recorded history is legal.

ghost use Rattle.lk_locks.specs.Play.{RecordedLock, new_lock, after_play, IsPlayAnswer};
ghost use Rattle.lk_locks.specs.invariants.Kept.{IsRecorded};
ghost use Rattle.std.specs.Prelude.{◌≡◌, ℕ, ◌<◌, ◌≤◌, ◌^◌, [], length, slice_index, OnOk, OnErr};
ghost use Rattle.std.specs.Prelude.{◌↔◌, IfSome, None};
ghost use Rattle.lk_locks.specs.State.{phase_at, start_of};
ghost use Rattle.lk_locks.specs.Steps.{refusal_of, change_of, next_state};
ghost use Rattle.lk_locks.specs.Progress.{IsFinishing, IsAtRest};
ghost use Rattle.lk_locks.specs.invariants.Distance.{distance_of};
ghost use Rattle.lk_locks.specs.Locks.{step_due, word_count};
ghost use Rattle.lk_locks.specs.MainTheorem.{IsAsPromised};
ghost use Rattle.lk_locks.specs.Holding.{as_holding, holding_of, waiting_of, IsListed};

use crate::{
    Entry, History, Holders, LockKind, Machine, Move, Outcome, PlayFault, Shape, StepKind, Tracker,
};
use arrayvec::ArrayVec;
use lk_words::{WordArray, Words};
use std::alloc::Global;
use std::marker::Model;

/// A lock that knows its holders, its queue and its history. A contract sees the state and the
/// entries.
#[derive(Drop)]
pub struct Keeper<W: Words> {
    lock: Tracker<W>,
    history: History,
}

impl<W: Words> Model for Keeper<W> {
    ghost Value = { RecordedLock };

    ghost view = { λ a. record {
      state = a.lock.state;
      entries = a.history.entries;
    } };

    ghost invariant = { λ a. IsRecorded a.lock a.history.entries };
}

impl Keeper<WordArray> {
    /// A new lock of this shape. It keeps the allocator and takes no memory yet.
    pub fn at_start(alloc: Global, shape: Shape) -> Keeper<WordArray>
        ensures { result ≡ record { state = start_of shape; entries = [] } }
    {
        Keeper {
            lock: Tracker::at_start(shape),
            history: History::new(alloc),
        }
    }

    /// Returns a move that brings the lock nearer to rest: it is accepted, and is neither a call
    /// for the lock nor a failed poll. There is none if and only if all threads are idle.
    pub fn finishing_move(&self) -> Option<(u8, Move)>
        ensures finishing { IfSome result (λ found. IsFinishing self.now.state found.0 found.1) }
        ensures nearer { IfSome result (λ found.
            distance_of (next_state self.now.state found.0 found.1) < distance_of self.now.state) }
        ensures none { result ≡ None ↔ IsAtRest self.now.state }
    {
        self.lock.finishing_move()
    }
}

impl<W: Words> Keeper<W> {
    /// A new lock with 1 to 64 threads, fewer than 2^B for words of B bits, which are all 0. It
    /// keeps the allocator and takes no memory yet.
    pub fn new(alloc: Global, kind: LockKind, threads: u8, words: W) -> Keeper<W>
        requires some { 0 < threads }
        requires few { threads ≤ 64 }
        requires narrow { threads < 2 ^ W.width words }
        requires room { word_count kind threads ≤ length (W.list words) }
        requires clear { (i : ℕ) → i < length (W.list words) → slice_index (W.list words) i ≡ 0 }
        ensures { result ≡ new_lock kind (W.width words) (W.list words) threads }
    {
        Keeper {
            lock: Tracker::of_new(Machine::new(kind, threads, words)),
            history: History::new(alloc),
        }
    }

    /// Plays a move, in this order: the refusal is decided, room for three entries is made, the
    /// move is made and recorded.
    ///
    /// # Errors
    ///
    /// After either fault nothing has changed. `OutOfMemory` is answered only if a growth of the
    /// history was refused; a refused move asks for no memory.
    pub fn play(&mut self, t: u8, m: Move) -> Result<Outcome, PlayFault>
        ensures answer { IsPlayAnswer (refusal_of self.old.state t m)
            (change_of self.old.state t m).outcome result }
        ensures played { OnOk result (self.new ≡ after_play self.old t m) }
        ensures kept { OnErr result (self.new ≡ self.old) }
    {
        self.lock.machine().check(t, m).map_err(PlayFault::Refused)?;
        self.history.make_room()?;
        match self.lock.play(t, m) {
            Ok((outcome, added)) => {
                self.history.append(added.entries(t).as_slice());
                Ok(outcome)
            }
            Err(refusal) => Err(PlayFault::Refused(refusal)),
        }
    }

    /// The history, oldest entry first. After any moves it is a legal history of the lock's
    /// sequential object, a queue lock has one holder at a time and is entered in the order of its
    /// requests, and a writer is alone.
    pub fn entries(&self) -> &[Entry]
        ensures entries { result.now ≡ self.now.entries }
        ensures promised { IsAsPromised self.now.state.kind
            (length self.now.state.phases) result.now }
    {
        self.history.entries()
    }

    /// The step that thread `t` takes next. There is none exactly if it has no pending call.
    pub fn next_step(&self, t: u8) -> Option<StepKind>
        requires { t < length self.now.state.phases }
        ensures { result ≡ step_due self.now.state.kind (phase_at self.now.state.phases t) }
    {
        self.lock.machine().next_step(t)
    }

    /// The present holders, by the history. A thread with a pending release of a queue lock still
    /// holds it. The cost does not depend on the length of the history.
    pub fn holders(&self) -> Holders
        ensures holding { as_holding result ≡ holding_of self.now.state.kind self.now.entries }
        ensures listed { IsListed (as_holding result) }
    {
        self.lock.holders()
    }

    /// The threads in the queue, by the history: the requests of a queue lock, oldest first, the
    /// holder's too; the announced writer of a FIFO lock; none of a simple lock.
    pub fn queue(&self) -> ArrayVec<u8, 64>
        ensures { result.items ≡ waiting_of self.now.state.kind self.now.entries }
    {
        self.lock.queue()
    }
}
