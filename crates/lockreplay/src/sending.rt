//! The reports of a batch on their way out, each after the line with its number.
//!
//! The bytes are those of `batch_text`, which gives them as one text and copies all reports for it.
//! For 24 long reports by two workers that copy took half of the time, on one thread, and half of
//! the memory. Here a long report goes out as it is. Short texts wait until a write is worth while,
//! in memory that is asked for once: no request can be refused after some bytes went out.

ghost use Rattle.std.specs.Prelude.{◌≡◌, ◌≢◌, ◌++◌, map, IfErr, IfOk, OnErr, OnOk};
ghost use Rattle.std.specs.Io.KnownBytes.{Appends, Keeps};
ghost use Rattle.lk_replay.specs.Devices.{AppendsPrefix, IfErrOf, Passes};
ghost use Rattle.lk_workers.specs.Batch.{batch_text_of};

use itoa::Buffer;
use lk_replay::{RunFault, send};
use std::alloc::Global;
use std::io::Write;

// The most bytes that wait: as many as a pipe of Linux holds.
const MOST_WAITING: usize = 65_536;

// Puts a text after what waits, and sends first what leaves it no room.
fn pass<W: Write>(waiting: &mut Vec<u8>, output: &mut W, text: &[u8]) -> Result<(), RunFault>
    ensures passed { OnOk result
        (Passes waiting.old.items (W.contents output.old) text.now waiting.new.items
        (W.contents output.new)) }
    ensures prefix { OnErr result
        (AppendsPrefix (W.contents output.old) (W.contents output.new)
        (waiting.old.items ++ text.now)) }
    ensures fault { IfErr result (λ e. e ≡ RunFault.Write) }
{
    if text.len() > waiting.capacity() - waiting.len() {
        send(output, waiting.as_slice())?;
        waiting.clear();
        if text.len() > waiting.capacity() {
            return send(output, text);
        }
    }
    // There is room, so it asks for no memory.
    waiting.extend_from_slice(text).unwrap();
    Ok(())
}

/// Sends the reports in order, each after the line `file K`, K from 1.
///
/// # Errors
///
/// `OutOfMemory` if a request for memory was refused; it is made before the first byte goes out.
/// `Write` if the output failed or took nothing: what was written is a prefix of it all.
pub fn send_reports<W: Write>(
    alloc: Global,
    output: &mut W,
    reports: &[Vec<u8>],
) -> Result<(), RunFault>
    ensures written { OnOk result
        (Appends (W.contents output.old) (W.contents output.new)
        (batch_text_of (map (λ r. r.items) reports.now))) }
    ensures prefix { IfErrOf result RunFault.Write
        (AppendsPrefix (W.contents output.old) (W.contents output.new)
        (batch_text_of (map (λ r. r.items) reports.now))) }
    ensures no_memory { IfErrOf result RunFault.OutOfMemory
        (Keeps (W.contents output.old) (W.contents output.new)) }
    ensures fault { IfErr result (λ e. e ≢ RunFault.Read) }
{
    let mut waiting = Vec::with_capacity(alloc, MOST_WAITING)?;
    for (place, report) in reports.iter().enumerate() {
        let mut digits = Buffer::new();
        pass(&mut waiting, output, b"file ")?;
        pass(&mut waiting, output, digits.format(place + 1).as_bytes())?;
        pass(&mut waiting, output, b"\n")?;
        pass(&mut waiting, output, report.as_slice())?;
    }
    send(output, waiting.as_slice())
}
