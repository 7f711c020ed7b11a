//! A trace, read line by line: the header, and then the moves, each checked on the header's lock.

ghost use Rattle.std.specs.Prelude.{◌≡◌, None, option_map, Option};
ghost use Rattle.lk_trace.specs.Codes.{fault_name};
ghost use Rattle.lk_trace.specs.Traces.{after_text_line, event_of, fault_named, read_header_of};
ghost use Rattle.lk_trace.specs.Checks.{Checked};

use crate::line::MOST_OF_A_LINE;
use crate::{Checker, Difference, Made, TraceLine, read_line};
use lk_lines::{ReadFault, header_of, is_skipped};
use lk_locks::Shape;
use std::marker::Model;
use thiserror::Error;

/// Why a text is no trace. They are a schedule's faults, but for its limits.
#[derive(Clone, Copy, PartialEq, Eq, Debug, Error)]
pub enum TextFault {
    /// No line but comments and empty ones.
    #[error("no header ({name})", name = self.name())]
    NoHeader,
    /// The first line that is not skipped is no header.
    #[error("not a header ({name})", name = self.name())]
    BadHeader,
    /// The header's number of threads is no number from 1 to 64.
    #[error("not a number of threads ({name})", name = self.name())]
    BadThreads,
    /// The header's words have no more values than it has threads.
    #[error("words too narrow for the threads ({name})", name = self.name())]
    WordsTooNarrow,
    /// A later line is no move.
    #[error("not a move ({name})", name = self.name())]
    BadLine,
}

impl TextFault {
    /// Its name.
    pub fn name(self) -> &'static str
        ensures { result.now ≡ fault_name self }
    {
        match self {
            TextFault::NoHeader => "NoHeader",
            TextFault::BadHeader => "BadHeader",
            TextFault::BadThreads => "BadThreads",
            TextFault::WordsTooNarrow => "WordsTooNarrow",
            TextFault::BadLine => "BadLine",
        }
    }
}

/// The result of a line of a trace.
#[derive(Clone, Copy)]
pub enum Event {
    /// It is empty or a comment.
    Skipped,
    /// It is the header.
    Began(Shape),
    /// The move was made, and each part that is given is the machine's.
    Made(TraceLine, Made),
    /// The move differs from the machine's, and was not made.
    Differs(TraceLine, Difference),
    /// It is no line of a trace.
    Fault(TextFault),
}

/// A trace of which some lines were read. A contract sees the lock, if the header was read.
#[derive(Drop)]
pub struct TraceReader {
    checker: Option<Checker>,
}

impl Model for TraceReader {
    ghost Value = { Option Checked };

    ghost view = { λ a. a.checker };
}

// The fault of a header, without its line.
fn fault_of(fault: ReadFault) -> TextFault
    ensures { result ≡ fault_named fault }
{
    match fault {
        ReadFault::BadThreads(_) => TextFault::BadThreads,
        ReadFault::WordsTooNarrow(_) => TextFault::WordsTooNarrow,
        _ => TextFault::BadHeader,
    }
}

/// The header that a line of at most 96 bytes is.
///
/// # Errors
///
/// `BadHeader`, `BadThreads` or `WordsTooNarrow`, the first of these that applies.
#[tactic(auto, using(crate::proofs::HeaderFaults::header_fails))]
pub fn read_header(line: &[u8]) -> Result<Shape, TextFault>
    ensures { result ≡ read_header_of line.now }
{
    if line.len() > MOST_OF_A_LINE {
        return Err(TextFault::BadHeader);
    }
    match header_of(line, 0) {
        Ok(header) => Ok(header),
        Err(fault) => Err(fault_of(fault)),
    }
}

impl TraceReader {
    /// No line was read yet.
    pub fn new() -> TraceReader
        ensures { result ≡ None }
    {
        TraceReader { checker: None }
    }

    /// The lock as it is now, if the header was read.
    pub fn checker(&self) -> Option<&Checker>
        ensures { option_map (λ c. c.now) result ≡ self.now }
    {
        self.checker.as_ref()
    }

    /// Reads the next line, without its end. After a difference or a fault nothing has changed.
    pub fn line(&mut self, line: &[u8]) -> Event
        ensures event { result ≡ event_of self.old line.now }
        ensures after { self.new ≡ after_text_line self.old line.now }
    {
        if is_skipped(line) {
            return Event::Skipped;
        }
        let Some(checker) = self.checker.as_mut() else {
            return match read_header(line) {
                Ok(header) => {
                    let checker = Checker::new(header);
                    self.checker = Some(checker);
                    Event::Began(header)
                }
                Err(fault) => Event::Fault(fault),
            };
        };
        let Some(line) = read_line(line) else {
            return Event::Fault(TextFault::BadLine);
        };
        match checker.step(line) {
            Ok(made) => Event::Made(line, made),
            Err(difference) => Event::Differs(line, difference),
        }
    }
}
