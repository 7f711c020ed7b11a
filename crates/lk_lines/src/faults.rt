//! The reasons for which a text is no schedule.

ghost use Rattle.std.specs.Prelude.{◌≡◌};
ghost use Rattle.lk_lines.specs.declared.faults.ReadFault.TheVariants.{OutOfMemory};

use std::alloc::AllocError;
use thiserror::Error;

/// The reason for which a text has no schedule, with the number of the line.
#[derive(Clone, Copy, PartialEq, Eq, Debug, Error)]
pub enum ReadFault {
    /// More than 1,048,576 bytes.
    #[error("the text is too long")]
    TooLong,
    /// No line but comments and empty ones. The line is the one after the last, where a header
    /// could still have come.
    #[error("line {0}: there is no header")]
    NoHeader(u32),
    /// The first line that is not skipped is no header.
    #[error("line {0}: not a header")]
    BadHeader(u32),
    /// The header's number of threads is no number from 1 to 64.
    #[error("line {0}: not a number of threads")]
    BadThreads(u32),
    /// A later line is no move.
    #[error("line {0}: not a move")]
    BadLine(u32),
    /// Move number 65,537.
    #[error("line {0}: too many moves")]
    TooManyMoves(u32),
    /// A request for memory was refused.
    #[error("out of memory")]
    OutOfMemory,
    /// The header's words have no more values than it has threads.
    #[error("line {0}: words too narrow for the threads")]
    WordsTooNarrow(u32),
}

impl From<AllocError> for ReadFault {
    ghost from_gives = { λ _ fault. fault ≡ OutOfMemory };

    fn from(_error: AllocError) -> ReadFault {
        ReadFault::OutOfMemory
    }
}
