//! Plays moves on a lock, and prints the line of each as it is played. No line asks for memory.

ghost use Rattle.std.specs.Prelude.{◌≡◌, ◌<◌, ◌≤◌, length, take, IfOk, OnErr, OnOk, []};
ghost use Rattle.lk_locks.specs.Steps.{refusal_of, refused_with};
ghost use Rattle.lk_locks.specs.invariants.Kept.{IsTracked};
ghost use Rattle.lk_replay.specs.Report.{line_start};
ghost use Rattle.lk_replay.specs.Printing.{Printing, line_text, printing_after, printing_of};

use crate::Line;
use crate::played::Accepted;
use crate::report::numerals::{put_count, put_number};
use crate::report::occupancy::OccupancyText;
use crate::report::text::{put, put_block};
use lk_lines::{move_block, outcome_block};
use lk_locks::{Machine, Refusal, Shape};
use lk_words::WordArray;
use std::marker::Model;

/// The bytes of the smallest place that lines are put into. A line has at most 64 bytes that
/// describe the move, and 384 that show who holds and who waits.
pub const LEAST_PLACE: usize = 448;

/// A lock, its holders and waiting threads, and how many moves were played on it.
#[derive(Drop)]
pub struct Printer {
    count: u32,
    machine: Machine<WordArray>,
    occupancy: OccupancyText,
}

impl Model for Printer {
    ghost Value = { Printing };

    ghost view = { λ a. record {
      state = a.machine;
      occupancy = a.occupancy;
      count = a.count;
    } };

    ghost invariant = { λ a. IsTracked a.machine a.occupancy.sequential };
}

// Writes `K T WORD OUTCOME hold ` of an accepted move, and returns where it ends.
#[tactic(auto, unfolding(crate::specs::Report::line_start))]
fn put_start(line: &mut [u8], count: u32, accepted: &Accepted) -> usize
    requires { 80 ≤ length line.old }
    ensures text { take result line.new ≡ line_start count accepted.now }
    ensures short { result ≤ 64 }
{
    let at = put_count(line, count);
    let at = put(line, at, b" ");
    let at = put_number(line, at, accepted.thread);
    let at = put(line, at, b" ");
    let (block, len) = move_block(accepted.action);
    let at = put_block::<16>(line, at, block, len);
    let (block, len) = outcome_block(accepted.outcome);
    let at = put_block::<16>(line, at, block, len);
    put(line, at, b"hold ")
}

impl Printer {
    /// Returns a new lock of this shape.
    pub fn new(shape: Shape) -> Printer
        ensures { result ≡ printing_of shape }
    {
        Printer {
            count: 0,
            machine: Machine::at_start(shape),
            occupancy: OccupancyText::new(shape.kind()),
        }
    }

    /// Returns how many moves were played.
    pub fn count(&self) -> u32
        ensures { result ≡ self.now.count }
    {
        self.count
    }

    /// Plays a move, prints its line at the front of a place, and returns how long the line is.
    ///
    /// # Errors
    ///
    /// The refusal of the move. Then nothing was played or printed.
    #[inline(always)]
    pub fn print_move(&mut self, line: Line, place: &mut [u8]) -> Result<usize, Refusal>
        requires place { 448 ≤ length place.old }
        requires few { self.old.count < 65536 }
        ensures refused { refused_with result
            ≡ refusal_of self.old.state line.thread line.action }
        ensures text { IfOk result (λ len. take len place.new ≡ line_text self.old line) }
        ensures fits { IfOk result (λ len. len ≤ length place.new) }
        ensures after { OnOk result (self.new ≡ printing_after self.old line) }
        ensures same { OnErr result (self.new ≡ self.old) }
    {
        let (outcome, added) = self.machine.play(line.thread, line.action)?;
        self.occupancy.follow(line.thread, added);
        self.count += 1;
        let accepted = Accepted {
            line: line.number,
            thread: line.thread,
            action: line.action,
            outcome,
        };
        let at = put_start(place, self.count, &accepted);
        Ok(self.occupancy.put(place, at))
    }
}
