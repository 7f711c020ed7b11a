//! The report of a schedule text.
//!
//! The whole text is read first. Then its moves are played, and each is printed as it is played, by
//! one `Replay`: into a `Vec` here, and into bytes that go out in `run`.

ghost use Rattle.std.specs.Prelude.{◌≡◌, ◌++◌, IfOk, OnOk};
ghost use Rattle.lk_replay.specs.Report.{report_text};
ghost use Rattle.lk_replay.specs.Whole.{IsReportOfText};

mod closings;
mod lists;
mod numerals;
mod occupancy;
mod printer;
mod replay;
mod text;

use crate::read_schedule;
pub use closings::{fault_text, put_last};
pub use printer::{LEAST_PLACE, Printer};
pub use replay::Replay;
use std::alloc::{AllocError, Global};

// The bytes that are printed at once.
const PLACE: usize = 4_096;

// Appends what is left of a report.
fn push_rest(out: &mut Vec<u8>, replay: &mut Replay<'_>) -> Result<(), AllocError>
    ensures { OnOk result (out.new.items ≡ out.old.items ++ replay.old.text) }
{
    let mut place = [0; PLACE];
    while replay.ending().is_none() {
        let len = replay.fill(&mut place);
        out.extend_from_slice(&place[..len])?;
    }
    Ok(())
}

/// The report of a schedule text, which shows the legal history that its moves leave. A fault of
/// the text is a report, not an error.
///
/// # Errors
///
/// There was no memory for the schedule or the report.
#[tactic(auto, unfolding(crate::specs::Report::report_text))]
pub fn report_of(alloc: Global, bytes: &[u8]) -> Result<Vec<u8>, AllocError>
    ensures report { IfOk result (λ report. report.items ≡ report_text bytes.now) }
    ensures promised { IfOk result (λ report. IsReportOfText bytes.now report.items) }
{
    let mut text = Vec::new(alloc);
    match read_schedule(alloc, bytes) {
        Ok(schedule) => push_rest(&mut text, &mut Replay::new(&schedule))?,
        Err(fault) => text.extend_from_slice(fault_text(fault)?.as_slice())?,
    }
    text.shrink_to_fit();
    Ok(text)
}
