//! The job of writing a trace without its values: the first two words of each move, and every other
//! line as it is kept.

use lk_lines::is_skipped;
use lk_text::follow::{faulty, unread};
use lk_text::formats::{PLAIN, put_text};
use lk_text::phrases::put_move;
use lk_text::report::{Ending, Report};
use lk_text::{Failure, Text, open, take_lines};
use lk_trace::{TextFault, read_header, read_line};
use std::alloc::Global;
use std::io::{Read, Write};
use std::rt::Runtime;

// Writes the line of a schedule that a trace's line is. `begun` says whether the header was read.
fn put_line(text: &mut Text, begun: &mut bool, line: &[u8]) -> Option<TextFault> {
    if is_skipped(line) {
        // an empty line keeps its number
    } else if !*begun {
        if let Err(fault) = read_header(line) {
            return Some(fault);
        }
        *begun = true;
        text.put(str::from_utf8(line).unwrap_or(""));
    } else if let Some(read) = read_line(line) {
        put_move(text, read.thread, read.action);
    } else {
        return Some(TextFault::BadLine);
    }
    text.put("\n");
    None
}

// Writes the schedule of the trace in an input, and gives the report of a line that ends it.
fn write_input<I: Read + Drop, O: Write>(
    alloc: Global,
    input: I,
    output: &mut O,
) -> Result<Option<Report>, Failure> {
    let (mut text, mut begun) = (Text::new(alloc), false);
    let (number, stopped) = take_lines(alloc, input, |number, line| -> Result<_, Failure> {
        let fault = put_line(&mut text, &mut begun, line.bytes());
        text.write_waiting(output)?;
        Ok(fault.map(|fault| faulty(alloc, number, line.bytes(), fault)))
    })?;
    text.write_to(output)?;
    output.flush()?;
    Ok(match stopped {
        Ok(None) if begun => None,
        Ok(None) => Some(faulty(alloc, number, b"".as_slice(), TextFault::NoHeader)),
        Ok(report) => report,
        Err(error) => Some(unread(alloc, &error)),
    })
}

/// Writes the schedule of a trace to the output, up to a line that is not a trace's, and to
/// `errors` what is wrong with that. Comments become empty lines, so that each line keeps its
/// number. A file `-` is standard input.
///
/// # Errors
///
/// The output failed, or a request for memory was refused. An input that fails or is no trace is no
/// error: that is told and answered.
pub fn write_schedule<R: Runtime, O: Write>(
    rt: &R,
    alloc: Global,
    name: &str,
    output: &mut O,
    errors: &mut Text,
) -> Result<Ending, Failure> {
    let report = match open(rt, name) {
        Ok(input) => write_input(alloc, input, output)?,
        Err(error) => Some(unread(alloc, &error)),
    };
    let Some(report) = report else {
        return Ok(Ending::Accepted);
    };
    put_text(errors, name, &report, PLAIN);
    Ok(report.ending)
}
