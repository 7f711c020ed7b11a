//! The inputs of jobs: a file by its name, or standard input by the name `-`.

use std::fs;
use std::io::{Read, Result};
use std::rt::Runtime;

/// The name of standard input, and of the output where a folder is asked for.
pub const STANDARD: &str = "-";

/// A file, or standard input.
#[derive(Drop)]
pub enum Source<F, S> {
    File(F),
    Standard(S),
}

impl<F: Read, S: Read> Read for Source<F, S> {
    ghost use Rattle.lk_text.specs.Sources.{left_in};

    ghost remaining = { left_in F.remaining S.remaining };

    fn read(&mut self, buf: &mut [u8]) -> Result<usize> {
        match self {
            Source::File(file) => file.read(buf),
            Source::Standard(input) => input.read(buf),
        }
    }
}

/// Opens the file of this name, or standard input if the name is `-`.
///
/// # Errors
///
/// The system does not open it.
pub fn open<R: Runtime>(rt: &R, name: &str) -> Result<Source<R::File, R::Reader>> {
    if name == STANDARD {
        return Ok(Source::Standard(rt.reader()));
    }
    Ok(Source::File(fs::open(rt, name)?))
}
