//! Schedules: reading one, replaying it, its report, and all of that between two devices.

ghost use Rattle.std.specs.Prelude.{◌≡◌, ◌≤◌, ◌<◌, ◌^◌, length, IfOk};
ghost use Rattle.std.specs.Io.KnownBytes.{Appends};
ghost use Rattle.lk_replay.specs.Ending.{ending_of};
ghost use Rattle.lk_replay.specs.Replay.{replayed_of};
ghost use Rattle.lk_replay.specs.Report.{report_text};

use lk_locks::{Entry, LockKind, Outcome, Refusal};
use lk_replay::{
    Accepted, Ending, Line, Played, ReadFault, RunFault, Schedule, ending_of, read_schedule,
    read_text, replay, report_of, run, send, status_of,
};
use std::alloc::{AllocError, Global};
use std::io::{self, Read, Write};

/// Reads the lock of a schedule text, its threads and the bits of its words. The words have more
/// values than there are threads.
pub fn lock_of(alloc: Global, text: &[u8]) -> Result<(LockKind, u8, u8), ReadFault>
    ensures { IfOk result (λ lock. lock.1 < 2 ^ lock.2) }
{
    let schedule: Schedule = read_schedule(alloc, text)?;
    Ok((schedule.kind(), schedule.threads(), schedule.bits()))
}

/// Counts the moves of a schedule.
pub fn count_moves(schedule: &Schedule) -> usize
    ensures { result ≤ 65536 }
{
    let moves: &[Line] = schedule.moves();
    moves.len()
}

/// Replays a schedule, and returns the line of its first refused move, and why it was refused.
pub fn first_refusal(
    alloc: Global,
    schedule: &Schedule,
) -> Result<Option<(u32, Refusal)>, AllocError>
    ensures { IfOk result (λ refused. refused ≡ (replayed_of schedule.now).refused) }
{
    let played: Played = replay(alloc, schedule)?;
    Ok(played.refused())
}

/// Writes a refusal for a reader, as `line 2: ` and its message.
pub fn print_refusal<W: Write>(output: &mut W, line: u32, refusal: Refusal) -> io::Result<()> {
    writeln!(output, "line {line}: {refusal}")
}

/// Counts the moves by which a thread entered.
pub fn times_entered(played: &Played) -> usize
    ensures { result ≤ length played.now.accepted }
{
    let moves: &[Accepted] = played.accepted();
    moves
        .iter()
        .filter(|done| done.outcome == Outcome::Entered)
        .count()
}

/// Returns the first entry of the history that the accepted moves left.
pub fn first_entry(played: &Played) -> Option<Entry> {
    let entries: &[Entry] = played.entries();
    entries.first().copied()
}

/// Returns the report of a text, and how it ends. A text with a fault has a report, too.
pub fn report_with_ending(alloc: Global, text: &[u8]) -> Result<(Vec<u8>, Ending), AllocError>
    ensures { IfOk result (λ r. (r.0.items ≡ report_text text.now)
        × (r.1 ≡ ending_of (report_text text.now))) }
{
    let report: Vec<u8> = report_of(alloc, text)?;
    let ending: Ending = ending_of(&report);
    Ok((report, ending))
}

/// Copies a text of at most 1,048,577 bytes from a reader to a writer.
pub fn copy<R: Read, W: Write>(
    alloc: Global,
    input: &mut R,
    output: &mut W,
) -> Result<Vec<u8>, RunFault>
    ensures few { IfOk result (λ text. length text.items ≤ 1048577) }
    ensures written { IfOk result
        (λ text. Appends (W.contents output.old) (W.contents output.new) text.items) }
{
    let text: Vec<u8> = read_text(alloc, input)?;
    let sent: Result<(), RunFault> = send(output, &text);
    sent?;
    Ok(text)
}

/// Writes the report of the schedule on a reader, and returns the exit status.
pub fn status_of_run<R: Read, W: Write>(alloc: Global, input: &mut R, output: &mut W) -> u8
    ensures { result ≤ 3 }
{
    let ran: Result<Ending, RunFault> = run(alloc, input, output);
    status_of(&ran)
}
