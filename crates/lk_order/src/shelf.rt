//! The logs of a run, taken in any order and given in the order of their threads.

ghost use Rattle.std.specs.Prelude.{◌≡◌, length, IfErr, IfOk, MatchOption, OnErr, OnOk};
ghost use Rattle.lk_order.specs.Shelves.{Shelved, HaveLogs, IsFirstWithout, IsTaken, IsUnfit};
ghost use Rattle.lk_order.specs.Shelves.{empty_shelf, logs_of, threads_of};

use crate::Log;
use lk_locks::Shape;
use std::alloc::{AllocError, Global};
use std::marker::Model;
use thiserror::Error;

/// The most threads of a lock.
pub const MOST_THREADS: usize = 64;

/// Why a log does not belong to the run.
#[derive(Clone, Copy, PartialEq, Eq, Debug, Error)]
pub enum Unfit {
    /// It is of another lock, or another number of threads or bits, than the first one.
    #[error("of another lock than the first log's")]
    OtherLock,
    #[error("a second log of its thread")]
    SecondLog,
}

/// The logs of a run that were taken so far.
#[derive(Drop)]
pub struct Shelf {
    // at t the log of thread t
    places: Vec<Option<Log>>,
    // of the logs
    lock: Option<Shape>,
}

impl Model for Shelf {
    ghost Value = { Shelved };

    ghost view = { λ a. record { lock = a.lock; places = a.places.items } };

    ghost invariant = { λ a. length a.places.items ≡ 64 };
}

impl Shelf {
    /// No log was taken yet.
    ///
    /// # Errors
    ///
    /// A request for memory was refused.
    pub fn new(alloc: Global) -> Result<Shelf, AllocError>
        ensures { IfOk result (λ shelf. shelf ≡ empty_shelf) }
    {
        let mut places = Vec::with_capacity(alloc, MOST_THREADS)?;
        for _ in 0..MOST_THREADS {
            places.push(None)?;
        }
        Ok(Shelf { places, lock: None })
    }

    /// Takes a log.
    ///
    /// # Errors
    ///
    /// It is of another lock than the first one, or else its thread has one. Then nothing has
    /// changed.
    pub fn put(&mut self, log: Log) -> Result<(), Unfit>
        ensures ok { OnOk result (IsTaken self.old self.new log) }
        ensures err { IfErr result (IsUnfit self.old log) }
        ensures same { OnErr result (self.new ≡ self.old) }
    {
        if self.lock.is_some_and(|lock| !log.has_header(lock)) {
            return Err(Unfit::OtherLock);
        }
        let thread = log.thread() as usize;
        if self.places[thread].is_some() {
            return Err(Unfit::SecondLog);
        }
        self.lock = Some(log.header());
        self.places[thread] = Some(log);
        Ok(())
    }

    /// The first thread that has no log, if one has none. Of no logs at all it is thread 0.
    pub fn missing(&self) -> Option<u8>
        ensures { MatchOption result (HaveLogs self.now (threads_of self.now.lock))
            (IsFirstWithout self.now) }
    {
        let threads = self.lock.map_or(1, |lock| lock.threads());
        for thread in 0..threads {
            if let Some(None) | None = self.places.get(thread as usize) {
                return Some(thread);
            }
        }
        None
    }

    /// The logs, log t of thread t. Threads that have none are passed over.
    ///
    /// # Errors
    ///
    /// A request for memory was refused.
    pub fn logs(self, alloc: Global) -> Result<Vec<Log>, AllocError>
        ensures { IfOk result (λ logs. logs.items ≡ logs_of self) }
    {
        self.places.into_iter().flatten().collect(alloc)
    }
}
