//! An output whose reader may have read enough.

use std::io::{ErrorKind, IsTerminal, Result, Write};

/// An output that drops what is written after its reader has gone. So a job goes on to its end, and
/// its status tells how it ended, as that of `locktrace check DIR | head -1`.
#[derive(Drop)]
pub struct Patient<O> {
    output: O,
    is_left: bool,
}

impl<O: Write> Patient<O> {
    /// The reader is there still.
    pub fn new(output: O) -> Patient<O> {
        Patient {
            output,
            is_left: false,
        }
    }
}

impl<O: Write> Write for Patient<O> {
    fn write(&mut self, bytes: &[u8]) -> Result<usize> {
        if self.is_left {
            return Ok(bytes.len());
        }
        match self.output.write(bytes) {
            Err(error) if error.kind() == ErrorKind::BrokenPipe => {
                self.is_left = true;
                Ok(bytes.len())
            }
            written => written,
        }
    }

    fn flush(&mut self) -> Result<()> {
        if self.is_left {
            return Ok(());
        }
        match self.output.flush() {
            Err(error) if error.kind() == ErrorKind::BrokenPipe => {
                self.is_left = true;
                Ok(())
            }
            flushed => flushed,
        }
    }
}

impl<O: IsTerminal> IsTerminal for Patient<O> {
    fn is_terminal(&self) -> bool {
        self.output.is_terminal()
    }
}
