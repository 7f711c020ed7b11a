//! From a schedule text on a reader to its report on a writer.

ghost use Rattle.std.specs.Prelude.{◌≡◌, ◌≢◌, ◌<◌, ◌≤◌, OnErr, OnOk, IfErr, IfOk, IfSome, Ok, Err};
ghost use Rattle.std.specs.Prelude.{Result, length};
ghost use Rattle.std.specs.Io.KnownBytes.{Appends, Keeps};
ghost use Rattle.lk_replay.specs.Devices.{AppendsPrefix, IfErrOf};
ghost use Rattle.lk_replay.specs.Ending.{ending_of, status_of};
ghost use Rattle.lk_replay.specs.Report.{report_text};
ghost use Rattle.lk_replay.specs.Whole.{AppendsReport};

use crate::devices::{RunFault, read_text, send, write_whole};
use crate::ending::Ending;
use crate::report::{Replay, fault_text};
use crate::schedule::read_schedule;
use lk_lines::Status;
use std::alloc::Global;
use std::io::{Read, Write};

// The bytes that are printed at once and go out together, since many small writes cost more than
// the bytes: as many as a pipe of Linux holds.
const PLACE: usize = 65_536;

// Writes what is left of a report, and returns how it ends. It asks for no memory.
fn send_rest<W: Write>(
    output: &mut W,
    place: &mut [u8],
    replay: &mut Replay<'_>,
) -> Result<Ending, RunFault>
    requires place { 448 ≤ length place.old }
    requires some { 0 < replay.old.left }
    ensures written { OnOk result
        (Appends (W.contents output.old) (W.contents output.new) replay.old.text) }
    ensures prefix { OnErr result
        (AppendsPrefix (W.contents output.old) (W.contents output.new) replay.old.text) }
    ensures ending { IfOk result (λ ending. ending ≡ replay.old.ending) }
    ensures fault { IfErr result (λ e. e ≡ RunFault.Write) }
{
    loop {
        let len = replay.fill(place);
        if let Some(ending) = replay.ending() {
            send(output, &place[..len])?;
            return Ok(ending);
        }
        write_whole(output, &place[..len])?;
    }
}

// Writes the report of a text, and returns how it ends.
#[tactic(auto, unfolding(crate::specs::Report::report_text))]
fn write_report<W: Write>(alloc: Global, output: &mut W, text: &[u8]) -> Result<Ending, RunFault>
    ensures written { OnOk result
        (Appends (W.contents output.old) (W.contents output.new) (report_text text.now)) }
    ensures ending { IfOk result (λ ending. ending ≡ ending_of (report_text text.now)) }
    ensures prefix { IfErrOf result RunFault.Write
        (AppendsPrefix (W.contents output.old) (W.contents output.new) (report_text text.now)) }
    ensures no_memory { IfErrOf result RunFault.OutOfMemory
        (Keeps (W.contents output.old) (W.contents output.new)) }
    ensures fault { IfErr result (λ e. e ≢ RunFault.Read) }
{
    match read_schedule(alloc, text) {
        Ok(schedule) => {
            let mut place = vec![in alloc; 0; PLACE]?;
            send_rest(output, &mut place, &mut Replay::new(&schedule))
        }
        Err(fault) => {
            let line = fault_text(fault)?;
            send(output, line.as_slice())?;
            Ok(Ending::Faulty)
        }
    }
}

/// Reads a schedule text, and writes its report and nothing else. The report of a schedule shows
/// the legal history that its moves leave.
///
/// The whole text is read before the first byte goes out. Then each move is played, and its line
/// goes out with the others that a pipe holds: the memory for it does not grow with the report.
///
/// # Errors
///
/// `Read` if the input failed, `OutOfMemory` if a request for memory was refused; nothing was
/// written then, since the last request is made before the first byte goes out. `Write` if the
/// output failed or took nothing: what was written is a prefix of the report.
pub fn run<R: Read, W: Write>(
    alloc: Global,
    input: &mut R,
    output: &mut W,
) -> Result<Ending, RunFault>
    ensures written { OnOk result (IfSome (R.remaining input.old)
        (AppendsReport (W.contents output.old) (W.contents output.new))) }
    ensures ending { IfOk result
        (λ ending. IfSome (R.remaining input.old) (λ text. ending ≡ ending_of (report_text text))) }
    ensures prefix { IfErrOf result RunFault.Write (IfSome (R.remaining input.old)
        (λ text. AppendsPrefix (W.contents output.old) (W.contents output.new)
        (report_text text))) }
    ensures unread { IfErrOf result RunFault.Read
        (Keeps (W.contents output.old) (W.contents output.new)) }
    ensures no_memory { IfErrOf result RunFault.OutOfMemory
        (Keeps (W.contents output.old) (W.contents output.new)) }
{
    let text = read_text(alloc, input)?;
    write_report(alloc, output, &text)
}

/// The exit status of a run: 0 if every move was accepted, 1 if one was refused or the text
/// is no schedule, and 3 after a fault.
pub fn status_of(ran: &Result<Ending, RunFault>) -> u8
    ensures { result ≡ status_of ran.now }
{
    let status = match ran {
        Ok(Ending::Accepted) => Status::Accepted,
        Ok(Ending::Refused | Ending::Faulty) => Status::Refused,
        Err(_) => Status::Failed,
    };
    status as u8
}
