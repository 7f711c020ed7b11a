//! Lists of threads as text, each number after a comma, into which a number is put where a thread
//! joins, and out of which it is taken where one leaves.

ghost use Rattle.std.specs.Prelude.{◌≡◌, ◌+◌, ◌++◌, ◌∷◌, ◌<◌, ◌≤◌, [], IsTrue, length, take, ℕ};
ghost use Rattle.std.specs.Prelude.{List, None, drop, false};
ghost use Rattle.lk_locks.specs.Holding.{shared_by};
ghost use Rattle.lk_locks.specs.Sequential.{has, is_head, with_reader, without_reader};
ghost use Rattle.lk_replay.specs.Occupancy.{AreReaders, IsQueue, below, numbers_in};
ghost use Rattle.lk_replay.specs.Report.{holding_text, later_numbers, queue_text};

use crate::report::numerals::{thread_block, width};
use crate::report::text::{Text, put};
use std::marker::Model;

/// The requests of a queue lock, oldest first.
#[derive(Drop)]
pub struct Requests {
    text: Text,
}

impl Model for Requests {
    ghost Value = { List ℕ };

    ghost view = { λ a. numbers_in a.text };

    ghost invariant = { λ a. IsQueue a.text };
}

impl Requests {
    /// No request.
    pub fn new() -> Requests
        ensures { result ≡ [] }
    {
        Requests { text: Text::new() }
    }

    /// Appends a thread.
    pub fn join(&mut self, thread: u8)
        requires few { length self.old < 64 }
        requires fits { thread < 64 }
        ensures { self.new ≡ self.old ++ thread ∷ [] }
    {
        let (block, len) = thread_block(b',', thread);
        self.text.push_block(&block, len);
    }

    /// Removes the queue's head.
    pub fn leave(&mut self, thread: u8)
        requires { IsTrue (is_head self.old thread) }
        ensures { self.new ≡ drop 1 self.old }
    {
        self.text.remove(0, width(thread) + 1);
    }

    /// Puts the queue into a line, from `at` on, and returns where it ends.
    pub fn put(&self, line: &mut [u8], at: usize) -> usize
        requires { at + 320 ≤ length line.old }
        ensures text { take result line.new ≡ take at line.old ++ queue_text self.now }
        ensures most { result ≤ at + 320 }
    {
        if self.text.is_empty() {
            put(line, at, b"-")
        } else {
            self.text.put_rest(line, at)
        }
    }
}

/// The readers, in ascending order. They are also kept as bits: counting those of the lower threads
/// gives a reader's place in the text, without a look at the readers before it.
#[derive(Drop)]
pub struct Readers {
    text: Text,
    bits: u64,
}

impl Model for Readers {
    ghost Value = { List ℕ };

    ghost view = { λ a. numbers_in a.text };

    ghost invariant = { λ a. AreReaders a.text a.bits };
}

impl Readers {
    /// No reader.
    pub fn new() -> Readers
        ensures { result ≡ [] }
    {
        Readers {
            text: Text::new(),
            bits: 0,
        }
    }

    // The place of a thread's number in the text, or the one that it would have. A number below 10
    // takes 2 bytes with its comma, and each other 3.
    fn place_of(&self, thread: u8) -> usize
        requires { thread < 64 }
        ensures { result ≡ length (later_numbers (below self.now thread)) }
    {
        let below = self.bits % (1 << thread);
        let short = below % 1024;
        3 * below.count_ones() as usize - short.count_ones() as usize
    }

    /// Puts a thread in.
    pub fn join(&mut self, thread: u8)
        requires few { length self.old < 64 }
        requires fits { thread < 64 }
        requires absent { has self.old thread ≡ false }
        ensures { self.new ≡ with_reader self.old thread }
    {
        let at = self.place_of(thread);
        let (block, len) = thread_block(b',', thread);
        self.text.insert(at, &block, len);
        self.bits += 1 << thread;
    }

    /// Takes a thread out.
    pub fn leave(&mut self, thread: u8)
        requires fits { thread < 64 }
        requires present { IsTrue (has self.old thread) }
        ensures { self.new ≡ without_reader self.old thread }
    {
        let at = self.place_of(thread);
        self.text.remove(at, width(thread) + 1);
        self.bits -= 1 << thread;
    }

    /// Puts the readers into a line, from `at` on, and returns where they end.
    pub fn put(&self, line: &mut [u8], at: usize) -> usize
        requires { at + 321 ≤ length line.old }
        ensures text { take result line.new ≡ take at line.old
            ++ holding_text (shared_by self.now None) }
        ensures most { result ≤ at + 321 }
    {
        if self.text.is_empty() {
            put(line, at, b"-")
        } else {
            let at = put(line, at, b"r");
            self.text.put_rest(line, at)
        }
    }
}
