//! The shape of a lock: its kind, its number of threads, and the number of bits of a word.

ghost use Rattle.std.specs.Prelude.{◌<◌, ◌≤◌, ◌≡◌, ◌^◌};
ghost use Rattle.lk_locks.specs.State as state;

use crate::LockKind;
use std::marker::Model;

/// The parameters of a new lock. A word has more values, 2^B, than there are threads, so that the
/// tickets of all threads differ.
#[derive(Clone, Copy)]
pub struct Shape {
    kind: LockKind,
    threads: u8,
    bits: u8,
}

impl Model for Shape {
    ghost Value = { state.Shape };

    ghost view = { λ a. record { kind = a.kind; threads = a.threads; bits = a.bits } };

    ghost inverse = { λ d. record { kind = d.kind; threads = d.threads; bits = d.bits } };

    ghost invariant = { λ a. (0 < a.threads) × (a.threads ≤ 64) × (a.threads < 2 ^ a.bits)
        × (2 ≤ a.bits) × (a.bits ≤ 64) };
}

impl Shape {
    /// A shape of 1 to 64 threads on words of 2 to 64 bits, with fewer threads than a word has
    /// values.
    pub fn new(kind: LockKind, threads: u8, bits: u8) -> Shape
        requires some { 0 < threads }
        requires few { threads ≤ 64 }
        requires narrow { threads < 2 ^ bits }
        requires least { 2 ≤ bits }
        requires most { bits ≤ 64 }
        ensures { result ≡ record { kind = kind; threads = threads; bits = bits } }
    {
        Shape {
            kind,
            threads,
            bits,
        }
    }

    /// The kind of the lock.
    pub fn kind(&self) -> LockKind
        ensures { result ≡ self.now.kind }
    {
        self.kind
    }

    /// The number of threads, from 1 to 64.
    pub fn threads(&self) -> u8
        ensures threads { result ≡ self.now.threads }
        ensures some { 0 < result }
        ensures few { result ≤ 64 }
        ensures narrow { result < 2 ^ self.now.bits }
    {
        self.threads
    }

    /// The number of bits of a word, from 2 to 64.
    pub fn bits(&self) -> u8
        ensures bits { result ≡ self.now.bits }
        ensures least { 2 ≤ result }
        ensures most { result ≤ 64 }
    {
        self.bits
    }
}
