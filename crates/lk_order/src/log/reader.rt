//! A log, read line by line: the header, the moves, and how many were dropped.

ghost use Rattle.std.specs.Prelude.{◌≡◌, ◌<◌, ◌++◌, ◌∷◌, [], None, MatchOption, IfSome, OnOk};
ghost use Rattle.std.specs.Prelude.{OnErr, IfErr, Ok, Err};
ghost use Rattle.lk_order.specs.Logs.{after_header, cut_last, dropped_of, IsFaultOf};
ghost use Rattle.lk_order.specs.declared.log.reader.LogFault.TheVariants.{OutOfMemory};
ghost use Rattle.lk_order.specs.Logs.{line_read, log_header_of, log_read, Reading};

use super::Log;
use lk_lines::{is_skipped, number_of, whole_number};
use lk_locks::Shape;
use lk_trace::{MOST_OF_A_LINE, TraceLine, read_header, read_log_line};
use std::alloc::{AllocError, AllocFailed, Global};
use std::marker::Model;
use thiserror::Error;

/// Why a text is no log.
#[derive(Clone, Copy, PartialEq, Eq, Debug, Error)]
pub enum LogFault {
    /// No line but comments and empty ones.
    #[error("no header (NoHeader)")]
    NoHeader,
    /// The first line that is not skipped is no header.
    #[error("not a log's header: lock NAME threads N thread T (BadHeader)")]
    BadHeader,
    /// A later line is no move.
    #[error("not a move (BadLine)")]
    BadMove,
    /// A line that is not skipped after the last one.
    #[error("a line after the last (BadLine)")]
    AfterTheEnd,
    /// Line number 4,294,967,295.
    #[error("too many lines (TooLong)")]
    TooLong,
    #[error("out of memory")]
    OutOfMemory,
}

impl From<AllocError> for LogFault {
    ghost from_gives = { λ _ fault. fault ≡ OutOfMemory };

    fn from(_error: AllocError) -> LogFault {
        LogFault::OutOfMemory
    }
}

impl<T: Drop> From<AllocFailed<T>> for LogFault {
    ghost from_gives = { λ _ fault. fault ≡ OutOfMemory };

    fn from(_error: AllocFailed<T>) -> LogFault {
        LogFault::OutOfMemory
    }
}

/// A log of which some lines were read.
#[derive(Drop)]
pub struct LogReader {
    alloc: Global,
    log: Option<Log>,
    number: u32,
}

impl Model for LogReader {
    ghost Value = { Reading };

    ghost view = { λ a. record { log = a.log; number = a.number } };
}

// The line before its last space, and the word after it.
fn cut_last_word(line: &[u8]) -> Option<(&[u8], &[u8])>
    ensures { MatchOption result (cut_last line.now ≡ None)
        (λ cut. cut_last line.now ≡ Some (cut.0.now, cut.1.now)) }
{
    let at = line.iter().rposition(|&b| b == b' ')?;
    Some((&line[..at], &line[at + 1..]))
}

// The header of a log: a trace's, and `thread T` after it.
fn header_of(line: &[u8]) -> Option<(Shape, u8)>
    ensures header { result ≡ log_header_of line.now }
    ensures has { IfSome result (λ read. read.1 < read.0.threads) }
{
    if line.len() > MOST_OF_A_LINE {
        return None;
    }
    let (front, number) = cut_last_word(line)?;
    let thread = number_of(number, 0, 63)?;
    let (front, word) = cut_last_word(front)?;
    if word != b"thread".as_slice() {
        return None;
    }
    match read_header(front) {
        Ok(header) if thread < header.threads() => Some((header, thread)),
        _ => None,
    }
}

// How many moves were dropped, if the line is the last of a log.
fn dropped_of(line: &[u8]) -> Option<u64>
    ensures { result ≡ dropped_of line.now }
{
    let number = line.strip_prefix(b"dropped ".as_slice())?;
    whole_number(number)
}

impl Log {
    // One move more.
    fn note(&mut self, line: TraceLine, number: u32) -> Result<(), LogFault>
        requires own { line.thread ≡ self.old.thread }
        ensures ok { OnOk result (self.new ≡ record self.old {
          moves = self.old.moves ++ line ∷ [];
          lines = self.old.lines ++ number ∷ [];
        }) }
        ensures err { IfErr result (λ fault. fault ≡ LogFault.OutOfMemory) }
        ensures same { OnErr result (self.new ≡ self.old) }
    {
        self.lines.push(number)?;
        if self.moves.push(line).is_err() {
            self.lines.pop();
            return Err(LogFault::OutOfMemory);
        }
        Ok(())
    }

    // Reads a line after the header that is not skipped. A move whose line has no end was cut off.
    fn take(&mut self, line: &[u8], number: u32, ended: bool) -> Result<(), LogFault>
        ensures ok { OnOk result (after_header self.old number ended line.now ≡ Ok self.new) }
        ensures err { IfErr result (IsFaultOf (after_header self.old number ended line.now)) }
        ensures same { OnErr result (self.new ≡ self.old) }
    {
        if self.dropped.is_some() {
            return Err(LogFault::AfterTheEnd);
        }
        if let Some(count) = dropped_of(line) {
            self.dropped = Some(count);
            return Ok(());
        }
        if !ended {
            return Ok(());
        }
        match read_log_line(line, self.owner) {
            Some(line) => self.note(line, number),
            None => Err(LogFault::BadMove),
        }
    }
}

impl LogReader {
    /// No line was read yet.
    pub fn new(alloc: Global) -> LogReader
        ensures { result ≡ record { log = None; number = 0 } }
    {
        LogReader {
            alloc,
            log: None,
            number: 0,
        }
    }

    /// Reads the next line, without its line feed. What comes after the last one has not `ended`,
    /// and may be nothing: a move there was cut off while it was written, and is not looked at.
    ///
    /// # Errors
    ///
    /// Every fault but `NoHeader`. Then nothing has changed.
    pub fn line(&mut self, line: &[u8], ended: bool) -> Result<(), LogFault>
        ensures ok { OnOk result (line_read self.old ended line.now ≡ Ok self.new) }
        ensures err { IfErr result (IsFaultOf (line_read self.old ended line.now)) }
        ensures same { OnErr result (self.new ≡ self.old) }
    {
        let number = self.number;
        if number >= u32::MAX - 1 {
            return Err(LogFault::TooLong);
        }
        if !is_skipped(line) {
            if let Some(log) = self.log.as_mut() {
                log.take(line, number + 1, ended)?;
            } else {
                let (header, owner) = header_of(line).ok_or(LogFault::BadHeader)?;
                self.log = Some(Log {
                    header,
                    owner,
                    moves: Vec::new(self.alloc),
                    lines: Vec::new(self.alloc),
                    dropped: None,
                });
            }
        }
        self.number = number + 1;
        Ok(())
    }

    /// The log.
    ///
    /// # Errors
    ///
    /// `NoHeader`.
    pub fn log(self) -> Result<Log, LogFault>
        ensures { result ≡ log_read self.log }
    {
        self.log.ok_or(LogFault::NoHeader)
    }
}
