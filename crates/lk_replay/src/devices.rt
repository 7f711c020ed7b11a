//! Whole texts from a reader and to a writer.

ghost use Rattle.std.specs.Prelude.{◌≡◌, ◌≢◌, ◌<◌, ◌≤◌, length, IfOk, IfErr, OnOk, OnErr};
ghost use Rattle.std.specs.Io.KnownBytes.{Appends, Consumes, IsAtEnd};
ghost use Rattle.lk_replay.specs.Devices.{AppendsPrefix};
ghost use Rattle.lk_replay.specs.declared.devices.RunFault.TheVariants.{OutOfMemory};

use crate::schedule::MOST_BYTES;
use std::alloc::{AllocError, Global};
use std::io::{Read, Write};
use thiserror::Error;

/// A fault that ends a run early.
#[derive(Clone, Copy, PartialEq, Eq, Debug, Error)]
pub enum RunFault {
    /// The input failed.
    #[error("cannot read")]
    Read,
    /// The output failed, or took nothing.
    #[error("cannot write")]
    Write,
    /// A request for memory was refused.
    #[error("out of memory")]
    OutOfMemory,
}

impl From<AllocError> for RunFault {
    ghost from_gives = { λ _ fault. fault ≡ OutOfMemory };

    fn from(_error: AllocError) -> RunFault {
        RunFault::OutOfMemory
    }
}

/// The most bytes that are read: one more than a schedule may have, so that a longer text is known
/// as such.
const READ_LIMIT: usize = MOST_BYTES + 1;

// The bytes asked of a reader at once. A small file, too, costs the clearing of all of them.
const CHUNK: usize = 4_096;

/// Reads to the end of the input, or up to 1,048,577 bytes and leaves the rest unread. The text has
/// no more memory than its bytes: a batch holds many.
///
/// # Errors
///
/// A read that fails, for whatever kind of error, is `Read`: there is no second try. `OutOfMemory`
/// if there was no memory for the text.
pub fn read_text<R: Read>(alloc: Global, input: &mut R) -> Result<Vec<u8>, RunFault>
    ensures taken { IfOk result
        (λ text. Consumes (R.remaining input.old) (R.remaining input.new) text.items) }
    ensures bounded { IfOk result (λ text. length text.items ≤ 1048577) }
    ensures whole { IfOk result
        (λ text. length text.items < 1048577 → IsAtEnd (R.remaining input.new)) }
    ensures fault { IfErr result (λ e. e ≢ RunFault.Write) }
{
    let mut text = Vec::new(alloc);
    let mut chunk = [0u8; CHUNK];
    while text.len() < READ_LIMIT {
        let want = CHUNK.min(READ_LIMIT - text.len());
        let count = input.read(&mut chunk[..want]).or(Err(RunFault::Read))?;
        if count == 0 {
            break;
        }
        text.extend_from_slice(&chunk[..count])?;
    }
    text.shrink_to_fit();
    Ok(text)
}

/// Writes all of the bytes.
///
/// # Errors
///
/// A write that fails or takes nothing is `Write`. A prefix of the bytes was written then.
pub(crate) fn write_whole<W: Write>(output: &mut W, bytes: &[u8]) -> Result<(), RunFault>
    ensures written { OnOk result
        (Appends (W.contents output.old) (W.contents output.new) bytes.now) }
    ensures prefix { OnErr result
        (AppendsPrefix (W.contents output.old) (W.contents output.new) bytes.now) }
    ensures fault { IfErr result (λ e. e ≡ RunFault.Write) }
{
    let mut sent: usize = 0;
    while sent < bytes.len() {
        match output.write(&bytes[sent..]) {
            Ok(0) | Err(_) => return Err(RunFault::Write),
            Ok(n) => sent += n,
        }
    }
    Ok(())
}

/// Writes all of the bytes, and flushes.
///
/// # Errors
///
/// A write that fails or takes nothing, or a flush that fails, is `Write`. A prefix of the bytes
/// was written then.
pub fn send<W: Write>(output: &mut W, bytes: &[u8]) -> Result<(), RunFault>
    ensures written { OnOk result
        (Appends (W.contents output.old) (W.contents output.new) bytes.now) }
    ensures prefix { OnErr result
        (AppendsPrefix (W.contents output.old) (W.contents output.new) bytes.now) }
    ensures fault { IfErr result (λ e. e ≡ RunFault.Write) }
{
    write_whole(output, bytes)?;
    output.flush().or(Err(RunFault::Write))
}
