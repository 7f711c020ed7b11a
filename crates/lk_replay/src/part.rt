//! A part of a text's report, for a caller that lends the room: no memory is taken. The text is
//! gone through once before its first move is played, so that each fault is known by then.

ghost use Rattle.std.specs.Prelude.{◌≡◌, ◌+◌, ◌-◌, ◌^◌, ◌++◌, ◌<◌, ◌≤◌, List, drop, length};
ghost use Rattle.std.specs.Prelude.{take, ℕ};
ghost use Rattle.std.specs.Bool.{OnFalse};
ghost use Rattle.lk_replay.specs.Part.{part_size, with_part};
ghost use Rattle.lk_replay.specs.Printing.{printed_text, printing_of, text_after};
ghost use Rattle.lk_replay.specs.Report.{report_text};
ghost use Rattle.lk_replay.specs.Schedule.{AreMoves, moves_left};

use crate::report::{LEAST_PLACE, Printer, fault_text, put_last};
use crate::schedule::{open_schedule, read_move};
use lk_lines::Lines;
use lk_locks::Shape;

// Copies bytes into the room from `to` on, as many as fit.
fn copy_to(room: &mut [u8], to: usize, bytes: &[u8])
    requires { to ≤ length room.old }
    ensures { room.new ≡ take to room.old ++ (take (length room.old - to) bytes.now
        ++ drop (to + length bytes.now) room.old) }
{
    let count = bytes.len().min(room.len() - to);
    room[to..to + count].copy_from_slice(&bytes[..count]);
}

// Adds the next bytes of a text, of which `at` came before them, to the part from `skip` on.
fn add_bytes(room: &mut [u8], skip: u64, at: u64, bytes: &[u8])
    ensures { (first text : List ℕ) → length text ≡ at → room.old ≡ with_part first skip text
        → room.new ≡ with_part first skip (text ++ bytes.now) }
{
    let to = at.saturating_sub(skip).min(room.len() as u64);
    let from = skip.saturating_sub(at).min(bytes.len() as u64);
    copy_to(room, to as usize, &bytes[from as usize..]);
}

// The number of bytes from `skip` on, if there are `at` in all, up to one more than have room.
fn size_from(at: u64, skip: u64, room: usize) -> u64
    requires { room < 2 ^ 63 }
    ensures { (text : List ℕ) → length text ≡ at → result ≡ part_size room skip text }
{
    at.saturating_sub(skip).min(room as u64 + 1)
}

// Prints the next line of the report, and returns how long it is, and whether it is the last.
fn print_next(printer: &mut Printer, lines: &mut Lines<'_>, line: &mut [u8]) -> (usize, bool)
    requires line { 448 ≤ length line.old }
    requires few { printer.old.count ≤ 65536 }
    requires whole { AreMoves lines.old printer.old.count }
    ensures text { printed_text printer.old (moves_left lines.old printer.old.count)
        ≡ take result.0 line.new
        ++ text_after result.1 printer.new (moves_left lines.new printer.new.count) }
    ensures fits { result.0 ≤ length line.new }
    ensures count { OnFalse result.1 (printer.new.count ≡ printer.old.count + 1) }
    ensures few { OnFalse result.1 (printer.new.count ≤ 65536) }
    ensures whole { OnFalse result.1 (AreMoves lines.new printer.new.count) }
{
    let count = printer.count();
    let Ok(Some(next)) = read_move(lines, count as usize) else {
        return (put_last(line, count, None), true);
    };
    match printer.print_move(next, line) {
        Ok(len) => (len, false),
        Err(refusal) => (put_last(line, count, Some((next.number, refusal))), true),
    }
}

// Writes the part of the report of these moves.
fn print_part(shape: Shape, lines: Lines<'_>, skip: u64, room: &mut [u8]) -> u64
    requires { AreMoves lines 0 }
    ensures size { result ≡ part_size (length room.old) skip
        (printed_text (printing_of shape) (moves_left lines.entry 0)) }
    ensures part { room.new ≡ with_part room.old skip
        (printed_text (printing_of shape) (moves_left lines.entry 0)) }
{
    let mut printer = Printer::new(shape);
    let mut lines = lines;
    let mut line = [0; LEAST_PLACE];
    let mut at: u64 = 0;
    loop {
        let (len, is_last) = print_next(&mut printer, &mut lines, &mut line);
        add_bytes(room, skip, at, &line[..len]);
        at += len as u64;
        let size = size_from(at, skip, room.len());
        if is_last || size > room.len() as u64 {
            return size;
        }
    }
}

/// Writes the bytes of a text's report from `skip` on, as many as there is room for, and returns
/// how many there are, counted to one more than the room has.
pub fn report_part(text: &[u8], skip: u64, room: &mut [u8]) -> u64
    ensures size { result ≡ part_size (length room.old) skip (report_text text.now) }
    ensures part { room.new ≡ with_part room.old skip (report_text text.now) }
{
    let (shape, lines, _) = match open_schedule(text) {
        Ok(read) => read,
        Err(fault) => {
            // no fault of a text wants memory
            let Ok(line) = fault_text(fault) else {
                return 0;
            };
            let bytes = line.as_slice();
            add_bytes(room, skip, 0, bytes);
            return size_from(bytes.len() as u64, skip, room.len());
        }
    };
    print_part(shape, lines, skip, room)
}
