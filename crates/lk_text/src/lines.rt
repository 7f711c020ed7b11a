//! The lines of an input, one after another, in memory that does not grow with it.
//!
//! Of each line the first 97 bytes are kept: no header and no move has more than 96, and of a
//! comment nothing but its first byte matters.

ghost use Rattle.std.specs.Prelude.{◌≤◌, ◌≡◌, ◌<◌, ◌++◌, [], false, true, length, take, IfOk};
ghost use Rattle.std.specs.Prelude.{IfSome, Ok};
ghost use Rattle.std.specs.Io.KnownBytes.{IsAtEnd, Keeps};

use lk_trace::MOST_OF_A_LINE;
use memchr::memchr;
use std::alloc::{AllocError, Global};
use std::io::{Error, ErrorKind, Read};

/// The bytes of a line that are kept.
const MOST_KEPT: usize = MOST_OF_A_LINE + 1;

// Bytes asked of a reader at once.
const CHUNK: usize = 65_536;

/// A line, or what is kept of it.
#[derive(Drop)]
pub struct Line {
    kept: [u8; 97],
    count: usize,
    whole: bool,
    ghost inside: { count ≤ 97 },
    ghost sized: { length kept ≡ 97 },
}

impl Line {
    ghost use Rattle.lk_text.specs.Lines.{kept_bytes};

    /// Nothing is kept.
    pub fn new() -> Line
        ensures kept { kept_bytes result ≡ [] }
        ensures whole { result.whole ≡ false }
    {
        Line {
            kept: [0; 97],
            count: 0,
            whole: false,
        }
    }

    /// Its bytes, at most 97 of them.
    pub fn bytes(&self) -> &[u8]
        ensures { result.now ≡ kept_bytes self.now }
    {
        &self.kept[..self.count]
    }

    /// Whether its line feed was there.
    pub fn is_whole(&self) -> bool
        ensures { result ≡ self.now.whole }
    {
        self.whole
    }

    fn clear(&mut self)
        ensures kept { kept_bytes self.new ≡ [] }
        ensures whole { self.new.whole ≡ false }
    {
        self.count = 0;
        self.whole = false;
    }

    // Keeps as many of these bytes as have room.
    fn keep(&mut self, bytes: &[u8])
        ensures kept { kept_bytes self.new ≡ take 97 (kept_bytes self.old ++ bytes.now) }
        ensures whole { self.new.whole ≡ self.old.whole }
    {
        let taken = bytes.len().min(MOST_KEPT - self.count);
        let end = self.count + taken;
        self.kept[self.count..end].copy_from_slice(&bytes[..taken]);
        self.count = end;
    }
}

/// An input that is read line by line.
#[derive(Drop)]
pub struct Lines<R> {
    input: R,
    chunk: Vec<u8>,
    at: usize,
    filled: usize,
    ghost ordered: { at ≤ filled },
    ghost inside: { filled ≤ length chunk.items },
    ghost sized: { length chunk.items ≡ 65536 },
}

impl<R: Read + Drop> Lines<R> {
    ghost use Rattle.lk_text.specs.Lines.{TakesLine, bytes_left};
    ghost use Rattle.lk_text.specs.invariants.{TakesPart};

    /// Nothing was read yet.
    pub fn new(alloc: Global, input: R) -> Result<Lines<R>, AllocError>
        ensures { IfOk result (λ lines. Keeps (R.remaining input) (bytes_left R.remaining lines)) }
    {
        Ok(Lines {
            input,
            chunk: vec![in alloc; 0; CHUNK]?,
            at: 0,
            filled: 0,
        })
    }

    // Reads on, if nothing is left of what was read ahead. False at the end of the input.
    fn refill(&mut self) -> Result<bool, Error>
        ensures kept { Keeps (bytes_left R.remaining self.old) (bytes_left R.remaining self.new) }
        ensures some { result ≡ Ok true → self.new.at < self.new.filled }
        ensures end { result ≡ Ok false → IsAtEnd (bytes_left R.remaining self.new) }
    {
        if self.at < self.filled {
            return Ok(true);
        }
        let count = self.input.read(self.chunk.as_mut_slice())?;
        self.at = 0;
        self.filled = count;
        Ok(count > 0)
    }

    // Takes what was read ahead, up to the first line feed. False if there is none.
    fn take_part(&mut self, line: &mut Line) -> bool
        requires { self.old.at < self.old.filled }
        ensures { TakesPart result (bytes_left R.remaining self.old)
            (bytes_left R.remaining self.new) line.old line.new }
    {
        let rest = &self.chunk[self.at..self.filled];
        match memchr(b'\n', rest) {
            Some(end) => {
                line.keep(&rest[..end]);
                line.whole = true;
                self.at += end + 1;
                true
            }
            None => {
                line.keep(rest);
                self.at = self.filled;
                false
            }
        }
    }

    /// The next line, if there is one. The end of the last line may be missing.
    ///
    /// # Errors
    ///
    /// The input failed.
    pub fn next_line(&mut self, line: &mut Line) -> Result<bool, Error>
        ensures line { result ≡ Ok true
            → TakesLine (bytes_left R.remaining self.old)
            (bytes_left R.remaining self.new) line.new }
        ensures end { result ≡ Ok false → IsAtEnd (bytes_left R.remaining self.old) }
    {
        line.clear();
        let mut some = false;
        for _ in 0..u64::MAX {
            if !self.refill()? {
                return Ok(some);
            }
            if self.take_part(line) {
                return Ok(true);
            }
            some = true;
        }
        Err(Error::from(ErrorKind::FileTooLarge))
    }
}

/// Gives each line of an input to `take`, with its number from 1, up to the first at which `take`
/// has a reason to stop. That number and reason are the answer. At the end of the input there is no
/// reason, and the number is one more than the input has lines.
///
/// # Errors
///
/// Those of `take`, or a request for memory was refused. An input that fails is answered.
pub fn take_lines<R: Read + Drop, S: Drop, E: From<AllocError> + Drop, F>(
    alloc: Global,
    input: R,
    mut take: F,
) -> Result<(u64, Result<Option<S>, Error>), E>
where
    F: FnMut(u64, &Line) -> Result<Option<S>, E>,
    requires { F.IsAlwaysCallable take }
    ensures { IfOk result (λ ended. 0 < ended.0) }
{
    let mut lines = Lines::new(alloc, input)?;
    let mut line = Line::new();
    for number in 1..u64::MAX {
        match lines.next_line(&mut line) {
            Ok(true) => {}
            ended => return Ok((number, ended.map(|_| None))),
        }
        if let Some(stop) = take(number, &line)? {
            return Ok((number, Ok(Some(stop))));
        }
    }
    Ok((u64::MAX, Err(Error::from(ErrorKind::FileTooLarge))))
}
