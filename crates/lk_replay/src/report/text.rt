//! A short text in a fixed array, which takes no memory as it grows.
//!
//! It is an `ArrayVec<u8, 320>` but for two things: a block of a fixed size is copied whole, beyond
//! the text's end, and the bytes after a short text are read with it. So neither copy depends on a
//! length, while an `ArrayVec` gives and takes its bytes up to its length alone, which takes up to
//! 5 % more instructions for a move.

ghost use Rattle.std.specs.Prelude.{◌≡◌, ◌+◌, ◌≤◌, ◌++◌, length, take, ℕ, List, ◌<◌, ◌↔◌, []};
ghost use Rattle.std.specs.Prelude.{IsTrue, drop};

use std::marker::Model;

// Enough for 64 numbers of at most 3 digits, each after a comma, and for a block's rest.
const MOST: usize = 320;

// The bytes of a text that are copied at once, if it has no more: two stores, whatever its
// length.
const SHORT: usize = 32;

/// Puts the first `len` bytes of a block into a place, from `at` on, and returns where they end.
/// The first N bytes are copied, and what is too much of them is overwritten by the next block: a
/// short text costs one store, whatever its length.
pub fn put_block<const N: usize>(place: &mut [u8], at: usize, block: &[u8], len: usize) -> usize
    requires room { at + N ≤ length place.old }
    requires wide { N ≤ length block.now }
    requires fits { len ≤ N }
    ensures text { take result place.new ≡ take at place.old ++ take len block.now }
    ensures end { result ≡ at + len }
{
    let mut bytes = [0; N];
    bytes.copy_from_slice(&block[..N]);
    place[at..at + N].copy_from_slice(&bytes);
    at + len
}

/// Puts bytes into a place, from `at` on, and returns where they end.
pub fn put<const N: usize>(place: &mut [u8], at: usize, bytes: &[u8; N]) -> usize
    requires { at + N ≤ length place.old }
    ensures text { take result place.new ≡ take at place.old ++ bytes.now }
    ensures end { result ≡ at + N }
{
    let bytes = *bytes;
    place[at..at + N].copy_from_slice(&bytes);
    at + N
}

/// A text of at most 320 bytes.
#[derive(Drop)]
pub struct Text {
    bytes: [u8; MOST],
    len: usize,
}

impl Model for Text {
    ghost Value = { List ℕ };

    ghost view = { λ a. take a.len a.bytes };

    ghost invariant = { λ a. a.len ≤ 320 };
}

impl Text {
    /// An empty text.
    pub fn new() -> Text
        ensures { result ≡ [] }
    {
        Text {
            bytes: [b' '; MOST],
            len: 0,
        }
    }

    /// The bytes.
    pub fn as_slice(&self) -> &[u8]
        ensures { result.now ≡ self.now }
    {
        &self.bytes[..self.len]
    }

    /// Whether there is no byte.
    pub fn is_empty(&self) -> bool
        ensures { IsTrue result ↔ length self.now ≡ 0 }
    {
        self.len == 0
    }

    /// Appends bytes.
    pub fn push(&mut self, text: &[u8])
        requires { length self.old + length text.now ≤ 320 }
        ensures { self.new ≡ self.old ++ text.now }
    {
        let end = self.len + text.len();
        self.bytes[self.len..end].copy_from_slice(text);
        self.len = end;
    }

    /// Appends the first `len` bytes of a block.
    pub fn push_block(&mut self, block: &[u8; 4], len: usize)
        requires room { length self.old + 4 ≤ 320 }
        requires fits { len ≤ 4 }
        ensures { self.new ≡ self.old ++ take len block.now }
    {
        self.len = put_block::<4>(&mut self.bytes, self.len, block, len);
    }

    /// Puts all but the first byte into a place, from `at` on, and returns where that ends.
    pub fn put_rest(&self, place: &mut [u8], at: usize) -> usize
        requires some { 0 < length self.now }
        requires room { at + 320 ≤ length place.old }
        ensures text { take result place.new ≡ take at place.old ++ drop 1 self.now }
        ensures most { result ≤ at + 320 }
    {
        let len = self.len - 1;
        if len <= SHORT {
            place[at..at + SHORT].copy_from_slice(&self.bytes[1..1 + SHORT]);
            return at + len;
        }
        place[at..at + len].copy_from_slice(&self.bytes[1..self.len]);
        at + len
    }

    /// Takes `count` bytes out, from the place `at` on.
    pub fn remove(&mut self, at: usize, count: usize)
        requires { at + count ≤ length self.old }
        ensures { self.new ≡ take at self.old ++ drop (at + count) self.old }
    {
        self.bytes.copy_within(at + count..self.len, at);
        self.len -= count;
    }

    /// Puts the first `len` bytes of a block in, at the place `at`.
    pub fn insert(&mut self, at: usize, block: &[u8; 4], len: usize)
        requires place { at ≤ length self.old }
        requires room { length self.old + 4 ≤ 320 }
        requires fits { len ≤ 4 }
        ensures { self.new ≡ (take at self.old ++ take len block.now) ++ drop at self.old }
    {
        self.bytes.copy_within(at..self.len, at + len);
        self.bytes[at..at + len].copy_from_slice(&block[..len]);
        self.len += len;
    }
}
