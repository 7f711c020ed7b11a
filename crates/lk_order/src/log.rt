//! A log: what one thread of a run wrote down by itself, read.

ghost use Rattle.std.specs.Prelude.{◌≡◌, ◌≢◌, ◌<◌, ◌↔◌, IsTrue, MatchBool, Some};
ghost use Rattle.lk_order.specs.Logs.{ThreadLog, IsSound};
ghost use Rattle.std.specs.List.{All, slice_get};

mod reader;

use lk_locks::Shape;
use lk_trace::TraceLine;
pub use reader::{LogFault, LogReader};
use std::marker::Model;

/// The log of one thread.
#[derive(Drop)]
pub struct Log {
    header: Shape,
    owner: u8,
    moves: Vec<TraceLine>,
    // the line of each move in its text
    lines: Vec<u32>,
    dropped: Option<u64>,
}

impl Model for Log {
    ghost Value = { ThreadLog };

    ghost view = { λ a. record {
      header = a.header;
      thread = a.owner;
      moves = a.moves.items;
      lines = a.lines.items;
      dropped = a.dropped;
    } };

    ghost invariant = { λ a. IsSound a.header.threads a.owner a.moves.items };
}

impl Log {
    /// The lock, and how many threads it has, and its words bits.
    pub fn header(&self) -> Shape
        ensures { result ≡ self.now.header }
    {
        self.header
    }

    // Whether it has this header.
    pub(crate) fn has_header(&self, header: Shape) -> bool
        ensures { IsTrue result ↔ self.now.header ≡ header }
    {
        self.header.kind() == header.kind()
            && self.header.threads() == header.threads()
            && self.header.bits() == header.bits()
    }

    /// Whose log it is.
    pub fn thread(&self) -> u8
        ensures thread { result ≡ self.now.thread }
        ensures few { result < self.now.header.threads }
        ensures own { All (λ line. line.thread ≡ result) self.now.moves }
    {
        self.owner
    }

    /// The moves, in order. Each is the thread's own.
    pub fn moves(&self) -> &[TraceLine]
        ensures moves { result.now ≡ self.now.moves }
        ensures own { All (λ line. line.thread ≡ self.now.thread) result.now }
    {
        self.moves.as_slice()
    }

    /// The line of the text that has a move, counted from 1.
    pub fn line_of(&self, at: usize) -> Option<u32>
        ensures { result ≡ slice_get self.now.lines at }
    {
        self.lines.get(at).copied()
    }

    /// How many further moves the thread made. None if the log ends without saying so.
    pub fn dropped(&self) -> Option<u64>
        ensures { result ≡ self.now.dropped }
    {
        self.dropped
    }

    /// Whether the thread made moves that are not in the log, or may have.
    pub fn is_cut(&self) -> bool
        ensures { MatchBool result (self.now.dropped ≢ Some 0) (self.now.dropped ≡ Some 0) }
    {
        !matches!(self.dropped, Some(0))
    }
}
