//! Failures that end a job early.

ghost use Rattle.std.specs.Prelude.{◌≡◌};

use crate::escapes::escaped;
use lk_lines::Status;
use std::alloc::{AllocError, Global};
use std::io;
use thiserror::Error;

/// Why a job could not be done to its end.
#[derive(Debug, Drop, Error)]
pub enum Failure {
    /// Standard output failed.
    #[error("cannot write: {0}")]
    Output(#[from] io::Error),
    /// A file cannot be read or written, or has its place taken: what to say of it.
    #[error("{0}")]
    File(String),
    #[error("out of memory")]
    Memory(#[from(alloc)] AllocError),
}

impl Failure {
    /// The value of what was done with the file of this path, or that it cannot be done: to read or
    /// to write it.
    pub fn unless<T>(
        alloc: Global,
        deed: &str,
        path: &str,
        done: io::Result<T>,
    ) -> Result<T, Failure> {
        match done {
            Ok(value) => Ok(value),
            Err(error) => {
                let path = escaped(alloc, path)?;
                Err(Failure::File(format!(in alloc; "cannot {deed} {path}: {error}")?))
            }
        }
    }

    /// Says that a file is in the place of one that an earlier run of this command would have left.
    pub fn in_place<T>(alloc: Global, path: &str, command: &str) -> Result<T, Failure> {
        let path = escaped(alloc, path)?;
        Err(Failure::File(format!(in alloc; "{path} is not of an earlier {command}")?))
    }

    /// Says that a file would be overwritten that is read.
    pub fn is_read<T>(alloc: Global, path: &str) -> Result<T, Failure> {
        let path = escaped(alloc, path)?;
        Err(Failure::File(format!(in alloc; "cannot write {path}: it is one of the logs")?))
    }

    /// The status of the program.
    pub fn status(&self) -> u8
        ensures { result ≡ 3 }
    {
        Status::Failed as u8
    }
}
