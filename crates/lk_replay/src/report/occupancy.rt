//! The holders of a lock and the threads that wait for it, as text that changes with each entry of
//! the history. A `Tracker` has them as lists, which would have to be printed anew for each move.

ghost use Rattle.std.specs.Prelude.{◌≡◌, ◌+◌, ◌++◌, ◌∷◌, ◌≤◌, [], length, take};
ghost use Rattle.lk_locks.specs.Change.{entries_by};
ghost use Rattle.lk_locks.specs.declared.kinds.Entry.TheVariants.{Acted, Announced, Returned};
ghost use Rattle.lk_locks.specs.Holding.{held_by_one, one_or_none, shared_by};
ghost use Rattle.lk_locks.specs.Legal.{AreEnabled, IsEnabled};
ghost use Rattle.lk_locks.specs.invariants.Kept.{IsSequential};
ghost use Rattle.lk_replay.specs.Occupancy.{Occupancy, occupancy_after, occupancy_of};
ghost use Rattle.lk_replay.specs.Occupancy.{occupancy_text};
ghost use Rattle.lk_replay.specs.Report.{holding_text, queue_text};

use crate::report::lists::{Readers, Requests};
use crate::report::numerals::put_number;
use crate::report::text::put;
use lk_locks::{Added, Family, LockKind, Op, family_of};
use std::marker::Model;

/// The holders and the waiting threads after the entries so far. The holder of a queue lock is the
/// thread whose acquire returned last, up to its release.
#[derive(Drop)]
pub struct OccupancyText {
    kind: LockKind,
    holder: Option<u8>,
    requests: Requests,
    readers: Readers,
    writer: Option<u8>,
    announced: Option<u8>,
}

impl Model for OccupancyText {
    ghost Value = { Occupancy };

    ghost view = { λ a. record {
      kind = a.kind;
      sequential = record {
        kind = a.kind;
        queue = a.requests;
        readers = a.readers;
        writer = a.writer;
        announced = a.announced;
      };
      holder = a.holder;
    } };

    ghost invariant = { λ a. IsSequential (record {
      kind = a.kind;
      queue = a.requests;
      readers = a.readers;
      writer = a.writer;
      announced = a.announced;
    }) };
}

// Writes a thread's number, or `-` for none.
fn put_one(line: &mut [u8], at: usize, thread: Option<u8>) -> usize
    requires { at + 4 ≤ length line.old }
    ensures held { take result line.new ≡ take at line.old ++ holding_text (held_by_one thread) }
    ensures waits { take result line.new ≡ take at line.old ++ queue_text (one_or_none thread) }
    ensures most { result ≤ at + 4 }
{
    match thread {
        Some(thread) => put_number(line, at, thread),
        None => put(line, at, b"-"),
    }
}

// Writes who holds a read-write lock.
fn put_sharers(line: &mut [u8], at: usize, readers: &Readers, writer: Option<u8>) -> usize
    requires { at + 321 ≤ length line.old }
    ensures text { take result line.new ≡ take at line.old
        ++ holding_text (shared_by readers.now writer) }
    ensures most { result ≤ at + 321 }
{
    match writer {
        Some(thread) => {
            let at = put(line, at, b"w");
            put_number(line, at, thread)
        }
        None => readers.put(line, at),
    }
}

impl OccupancyText {
    /// The occupancy of a lock with no history yet.
    pub fn new(kind: LockKind) -> OccupancyText
        ensures { result ≡ occupancy_of kind [] }
    {
        OccupancyText {
            kind,
            holder: None,
            requests: Requests::new(),
            readers: Readers::new(),
            writer: None,
            announced: None,
        }
    }

    // A writer announces itself.
    fn announce(&mut self, t: u8)
        requires { IsEnabled self.old.sequential (Announced t) }
        ensures { self.new ≡ occupancy_after self.old (Announced t ∷ []) }
    {
        self.announced = Some(t);
    }

    // A call takes effect.
    fn act(&mut self, t: u8, op: Op)
        requires { IsEnabled self.old.sequential (Acted t op) }
        ensures { self.new ≡ occupancy_after self.old (Acted t op ∷ []) }
    {
        match op {
            Op::Acquire => self.requests.join(t),
            Op::Release => {
                self.requests.leave(t);
                self.holder = None;
            }
            Op::ReadLock => self.readers.join(t),
            Op::ReadUnlock => self.readers.leave(t),
            Op::WriteLock => {
                self.writer = Some(t);
                self.announced = None;
            }
            Op::WriteUnlock => self.writer = None,
            Op::Downgrade => {
                self.readers.join(t);
                self.writer = None;
            }
        }
    }

    // A call returns.
    fn enter(&mut self, t: u8, op: Op)
        ensures { self.new ≡ occupancy_after self.old (Returned t op ∷ []) }
    {
        if op == Op::Acquire {
            self.holder = Some(t);
        }
    }

    /// Applies what the next move of a legal history adds.
    pub fn follow(&mut self, t: u8, added: Added)
        requires { AreEnabled self.old.sequential (entries_by t added) }
        ensures { self.new ≡ occupancy_after self.old (entries_by t added) }
    {
        match added {
            Added::Nothing | Added::Call(_) => {}
            Added::Announcement => self.announce(t),
            Added::Act(op) => self.act(t, op),
            Added::Return(op) => self.enter(t, op),
            Added::ActAndReturn(op) => {
                self.act(t, op);
                self.enter(t, op);
            }
            Added::AnnouncedWrite => {
                self.announce(t);
                self.act(t, Op::WriteLock);
            }
        }
    }

    /// Writes who holds and who waits, up to the line's end, and returns where that is.
    pub fn put(&self, line: &mut [u8], at: usize) -> usize
        requires { at + 384 ≤ length line.old }
        ensures text { take result line.new ≡ take at line.old ++ occupancy_text self.now }
        ensures fits { result ≤ length line.new }
    {
        match family_of(self.kind) {
            Family::Queue => {
                let at = put_one(line, at, self.holder);
                let at = put(line, at, b" queue ");
                let at = self.requests.put(line, at);
                put(line, at, b"\n")
            }
            Family::ReadWrite => {
                let at = put_sharers(line, at, &self.readers, self.writer);
                put(line, at, b" queue -\n")
            }
            Family::FifoReadWrite => {
                let at = put_sharers(line, at, &self.readers, self.writer);
                let at = put(line, at, b" queue ");
                let at = put_one(line, at, self.announced);
                put(line, at, b"\n")
            }
        }
    }
}
