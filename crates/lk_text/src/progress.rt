//! A line on a terminal while a long file is read, or long logs are put into one order.

use std::io::Eprint;

// Lines between two words of progress.
const EVERY: u64 = 1_000_000;

// From so many moves on something is shown: a million take seconds.
const MANY: usize = 100_000;

/// A line of a terminal, if standard error is one.
#[derive(Drop)]
pub struct Progress<'a, R: Eprint> {
    rt: &'a R,
    is_terminal: bool,
    shown: bool,
}

impl<'a, R: Eprint> Progress<'a, R> {
    /// Nothing is shown yet.
    pub fn new(rt: &'a R, is_terminal: bool) -> Progress<'a, R> {
        Progress {
            rt,
            is_terminal,
            shown: false,
        }
    }

    /// Says now and then how far the file of this name is read.
    pub fn line(&mut self, name: &str, number: u64) {
        if self.is_terminal && number % EVERY == 0 {
            let _ = eprint!(self.rt; "\r{name}: {number} lines");
            self.shown = true;
        }
    }

    /// Says what is done with so many moves, if they are many.
    pub fn begin(&mut self, done: &str, moves: usize) {
        if self.is_terminal && moves >= MANY {
            let _ = eprint!(self.rt; "\r\x1b[K{done} {moves} moves");
            self.shown = true;
        }
    }

    /// Clears the line.
    pub fn end(&self) {
        if self.shown {
            let _ = eprint!(self.rt; "\r\x1b[K");
        }
    }
}
