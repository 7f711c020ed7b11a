//! The ending of a report. The code that prints a report has its ending as a value. A reader of the
//! bytes alone takes it from the last line.

ghost use Rattle.std.specs.Prelude.{◌≡◌};
ghost use Rattle.lk_lines.specs.Lines.{lines_of};
ghost use Rattle.lk_replay.specs.Ending.{last_of, ending_of};

/// The way in which a report ends.
#[derive(Clone, Copy, PartialEq, Eq, Debug)]
pub enum Ending {
    /// Every move was accepted.
    Accepted,
    /// A move was refused.
    Refused,
    /// The text is no schedule.
    Faulty,
}

// The last line of a text, and an empty one if there is none. A report is long and its last line
// is short, so the search for it begins at the end.
fn last_line_of(text: &[u8]) -> &[u8]
    ensures { result.now ≡ last_of (lines_of text.now) }
{
    let body = text.strip_suffix(b"\n").unwrap_or(text);
    match body.iter().rposition(|&b| b == b'\n') {
        Some(at) => &body[at + 1..],
        None => body,
    }
}

/// The ending of a report, by its last line. A report with no line is `Faulty`.
#[tactic(auto, unfolding(crate::specs::Ending::ending_of))]
pub fn ending_of(report: &[u8]) -> Ending
    ensures { result ≡ ending_of report.now }
{
    let line = last_line_of(report);
    if line.starts_with(b"end ") {
        Ending::Accepted
    } else if line.starts_with(b"refused ") {
        Ending::Refused
    } else {
        Ending::Faulty
    }
}
