//! An order as text: its trace, and schedules that are cut where nobody is in a call and nobody
//! holds.

use crate::folder::{ENDING, Folder, RUN, TRACE};
use crate::run::put_header;
use lk_order::{Order, Piece, Pieces};
use lk_text::course::{Course, Fate};
use lk_text::phrases::{called, put_line, put_move};
use lk_text::{Failure, Text, Value};
use std::alloc::{AllocError, Global};
use std::io::Write;
use std::rt::Files;

// Writes which threads of a run that hangs have ended, as a recorder writes it.
fn put_ends(text: &mut Text, threads: u8, course: &Course) {
    for thread in 0..threads {
        let is_over = course.fate(thread) == Fate::Ended;
        let end = if is_over { "ended" } else { "not ended" };
        let places = [("who", called(thread, &[])), ("end", Value::Text(end))];
        text.fill("# {who} has {end}\n", &places);
    }
}

/// Writes the trace of an order. If the run hangs, `hung` says how far its threads came.
pub fn write_trace<O: Write>(
    alloc: Global,
    order: &Order,
    hung: Option<&Course>,
    output: &mut O,
) -> Result<(), Failure> {
    let mut text = Text::new(alloc);
    put_header(&mut text, order.header());
    for k in 0..order.len() {
        if let Some(line) = order.line(k) {
            put_line(&mut text, &line);
            text.put("\n");
        }
        text.write_waiting(output)?;
    }
    if let Some(course) = hung {
        put_ends(&mut text, order.header().threads(), course);
    }
    text.write_to(output)?;
    output.flush()?;
    Ok(())
}

// A piece of an order as a schedule.
fn schedule_of(alloc: Global, order: &Order, piece: Piece) -> Text {
    let mut text = Text::new(alloc);
    put_header(&mut text, order.header());
    for k in piece.first..piece.first.saturating_add(piece.moves) {
        if let Some(line) = order.line(k) {
            put_move(&mut text, line.thread, line.action);
            text.put("\n");
        }
    }
    text
}

// The names of the files of an order, and how many moves are in no schedule.
fn names_of(alloc: Global, order: &Order) -> Result<(Vec<String>, usize), AllocError> {
    let mut names = vec![in alloc; String::from_str(alloc, TRACE)?]?;
    let mut pieces = Pieces::new(order);
    for number in 1..usize::MAX {
        if pieces.next_piece().is_none() {
            break;
        }
        names.push(format!(in alloc; "{RUN}{number:04}{ENDING}")?)?;
    }
    Ok((names, pieces.left_out()))
}

// Writes the drafts of an order's schedules under these names.
fn draft_schedules<R: Files>(
    order: &Order,
    folder: &Folder<'_, R>,
    names: &[String],
) -> Result<(), Failure> {
    let mut pieces = Pieces::new(order);
    for name in names {
        let Some(piece) = pieces.next_piece() else {
            break;
        };
        let text = schedule_of(folder.alloc, order, piece);
        folder.write(name, text.as_str()?)?;
    }
    Ok(())
}

// Writes the drafts of an order's files, of which the first is the trace.
fn draft_files<R: Files>(
    order: &Order,
    hung: Option<&Course>,
    folder: &Folder<'_, R>,
    names: &[String],
) -> Result<(), Failure> {
    let mut file = folder.create(TRACE)?;
    let written = write_trace(folder.alloc, order, hung, &mut file);
    folder.written(TRACE, written)?;
    draft_schedules(order, folder, names.get(1..).unwrap_or(&[]))
}

/// Writes the trace and the schedules of an order into a folder, in place of an earlier order, and
/// gives how many moves are in no schedule. None of the inputs is overwritten.
pub fn write_files<R: Files>(
    order: &Order,
    hung: Option<&Course>,
    folder: &Folder<'_, R>,
    inputs: &[String],
) -> Result<usize, Failure> {
    let (names, left_out) = names_of(folder.alloc, order)?;
    let earlier = folder.begin(&names, inputs)?;
    let drafted = draft_files(order, hung, folder, &names);
    folder.end(&names, &earlier, drafted)?;
    Ok(left_out)
}
