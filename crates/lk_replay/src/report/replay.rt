//! Prints the lines of a schedule's report: a move is played when its line is printed. No line asks
//! for memory.

ghost use Rattle.std.specs.Prelude.{◌≡◌, ◌≤◌, length, take, ◌+◌, ◌++◌, [], MatchOption, ◌<◌};
ghost use Rattle.lk_replay.specs.Ending.{ending_by};
ghost use Rattle.lk_replay.specs.Replay.{replay_from, replay_of};
ghost use Rattle.lk_replay.specs.Report.{replay_text};
ghost use Rattle.lk_replay.specs.ReportRest.{ReportRest, rest_of};

use crate::ending::Ending;
use crate::report::closings::put_last;
use crate::report::printer::{LEAST_PLACE, Printer};
use crate::{Line, Schedule};
use std::marker::Model;

/// The moves of a schedule that are left, the lock on which the others were played and printed, and
/// how the report ends, once its last line is printed.
#[derive(Drop)]
pub struct Replay<'a> {
    moves: &'a [Line],
    printer: Printer,
    ending: Option<Ending>,
}

impl<'a> Model for Replay<'a> {
    ghost Value = { ReportRest };

    ghost view = { λ a. rest_of a.ending a.printer.occupancy a.printer.count
        (replay_from a.printer.state a.moves.now) };

    ghost invariant = { λ a. a.printer.count + length a.moves.now ≤ 65536 };
}

impl<'a> Replay<'a> {
    /// The replay of a schedule, at its start.
    pub fn new(schedule: &'a Schedule) -> Replay<'a>
        ensures text { result.text ≡ replay_text schedule.now.shape.kind (replay_of schedule.now) }
        ensures some { 0 < result.left }
        ensures ending { result.ending ≡ ending_by (replay_of schedule.now).refused }
    {
        Replay {
            moves: schedule.moves(),
            printer: Printer::new(schedule.shape()),
            ending: None,
        }
    }

    // Prints the next line at the front of a place, and returns how long it is. That is the last
    // line if no move is left, or the next is refused.
    fn print_next(&mut self, place: &mut [u8]) -> usize
        requires place { 448 ≤ length place.old }
        requires some { 0 < self.old.left }
        ensures text { self.old.text ≡ take result place.new ++ self.new.text }
        ensures fits { result ≤ length place.new }
        ensures left { self.new.left + 1 ≡ self.old.left }
        ensures ending { self.new.ending ≡ self.old.ending }
    {
        let Some((line, rest)) = self.moves.split_first() else {
            self.ending = Some(Ending::Accepted);
            return put_last(place, self.printer.count(), None);
        };
        let line = *line;
        match self.printer.print_move(line, place) {
            Ok(len) => {
                self.moves = rest;
                len
            }
            Err(refusal) => {
                self.ending = Some(Ending::Refused);
                put_last(place, self.printer.count(), Some((line.number, refusal)))
            }
        }
    }

    /// Prints the next lines into a place, as many as have room whatever their length, and returns
    /// where they end.
    pub fn fill(&mut self, place: &mut [u8]) -> usize
        requires place { 448 ≤ length place.old }
        requires some { 0 < self.old.left }
        ensures text { self.old.text ≡ take result place.new ++ self.new.text }
        ensures fits { result ≤ length place.new }
        ensures fewer { self.new.left < self.old.left }
        ensures ending { self.new.ending ≡ self.old.ending }
        ensures same { length place.new ≡ length place.old }
    {
        let mut len = 0;
        loop {
            len += self.print_next(&mut place[len..]);
            if self.ending.is_some() || place.len() - len < LEAST_PLACE {
                return len;
            }
        }
    }

    /// The ending of the report, once no line is left.
    pub fn ending(&self) -> Option<Ending>
        ensures { MatchOption result (0 < self.now.left)
            (λ ending. (ending ≡ self.now.ending) × (self.now.text ≡ [])) }
    {
        self.ending
    }
}
