//! The two jobs of the program, over any devices.

ghost use Rattle.std.specs.Prelude.{◌≡◌, ◌≤◌, length, map, IfOk, IfErr};
ghost use Rattle.lockreplay.specs.Jobs.{EndsBatch, EndsJob, IsFileFault, IsFitJob};
ghost use Rattle.lockreplay.specs.Jobs.{status_of_reports};

use crate::command_line::Job;
use crate::faults::ProgramFault;
use crate::sending::send_reports;
use lk_lines::Status;
use lk_replay::{Ending, RunFault, ending_of, read_text, run, status_of};
use lk_workers::{OpenGate, replay_many};
use std::alloc::Global;
use std::fs;
use std::io::{Read, Write};
use std::rt::Files;
use std::thread::Threads;

/// The text of each file, in order. The first file that cannot be opened or read is the fault.
fn file_texts<R: Files>(
    rt: &R,
    alloc: Global,
    files: &[String],
) -> Result<Vec<Vec<u8>>, ProgramFault>
    requires { length files.now ≤ 65536 }
    ensures each { IfOk result (λ texts. length texts.items ≡ length files.now) }
    ensures fault { IfErr result (IsFileFault (length files.now)) }
{
    let mut texts = Vec::new(alloc);
    for (place, file) in files.iter().enumerate() {
        let number = place as u32 + 1;
        let Ok(mut file) = fs::open(rt, file.as_str()) else {
            return Err(ProgramFault::File(number));
        };
        match read_text(alloc, &mut file) {
            Ok(text) => texts.push(text).or(Err(ProgramFault::Memory))?,
            Err(RunFault::OutOfMemory) => return Err(ProgramFault::Memory),
            Err(_) => return Err(ProgramFault::File(number)),
        }
    }
    Ok(texts)
}

/// The status of a batch with these reports: 0 if every move of every schedule was accepted or
/// there is no report, else 1.
pub fn batch_status(reports: &[Vec<u8>]) -> u8
    ensures { result ≡ status_of_reports (map (λ r. r.items) reports.now) }
{
    let accepted = reports
        .iter()
        .all(|report| ending_of(report.as_slice()) == Ending::Accepted);
    if accepted {
        Status::Accepted as u8
    } else {
        Status::Refused as u8
    }
}

/// Replays the schedule of each file by this many workers, writes the reports in the order of the
/// files, and gives the status that they have. Nothing is written before all of it is ready.
pub fn replay_files<R: Files + Threads + Sync, W: Write>(
    rt: &R,
    alloc: Global,
    workers: u8,
    files: &[String],
    output: &mut W,
) -> Result<u8, ProgramFault>
    requires workers { (1 ≤ workers) × (workers ≤ 8) }
    requires files { length files.now ≤ 65536 }
    ensures { EndsBatch (length files.now) (W.contents output.old) (W.contents output.new) result }
{
    let texts = file_texts(rt, alloc, files)?;
    let Ok(reports) = replay_many(rt, alloc, &texts, workers, &OpenGate) else {
        return Err(ProgramFault::Memory);
    };
    send_reports(alloc, output, &reports)?;
    Ok(batch_status(&reports))
}

/// Does the job, and gives the status that the program ends with.
pub fn perform<R: Files + Threads + Sync, I: Read, O: Write>(
    rt: &R,
    alloc: Global,
    job: &Job,
    input: &mut I,
    output: &mut O,
) -> Result<u8, ProgramFault>
    requires { IsFitJob job.now }
    ensures { EndsJob job.now (I.remaining input.old) (O.contents output.old)
        (O.contents output.new) result }
{
    match job {
        Job::Replay => Ok(status_of(&Ok(run(alloc, input, output)?))),
        Job::Batch { workers, files } => replay_files(rt, alloc, *workers, files, output),
    }
}
