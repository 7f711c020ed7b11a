//! The answers of reading a text and of reporting if memory is refused.

use crate::holding::holds;
use crate::refusing::{refuse, was_refused};
use lk_replay::{
    Ending, ReadFault, RunFault, Schedule, ending_of, read_schedule, read_text, report_of, run,
    status_of,
};
use std::alloc::Global;
use std::io;
use std::io::Write;
use std::process::Abort;

/// A text, its report, and how that ends.
pub type Text = (&'static str, &'static str, Ending);

/// One for each ending.
pub const TEXTS: [Text; 3] = [
    (
        "lock ticket threads 2\n0 acquire\n0 add\n0 read\n",
        "\
1 0 acquire called hold - queue -
2 0 add moved hold - queue 0
3 0 read entered hold 0 queue 0
end 3
",
        Ending::Accepted,
    ),
    (
        "lock ticket threads 2\n0 acquire\n0 read\n",
        "1 0 acquire called hold - queue -\nrefused line 3 WrongStep next add\n",
        Ending::Refused,
    ),
    (
        "lock ticket threads 2\n0 acquire\n0 go\n",
        "fault line 3 BadLine\n",
        Ending::Faulty,
    ),
];

// Whether both are read alike. Of the faulty text, the fault is after a move.
fn are_alike(found: &Result<Schedule, ReadFault>, due: &Result<Schedule, ReadFault>) -> bool {
    match (found, due) {
        (Ok(found), Ok(due)) => found.moves() == due.moves(),
        (Err(fault), Err(_)) => *fault == ReadFault::BadLine(3),
        _ => false,
    }
}

pub fn read(rt: &impl Abort, alloc: Global, number: usize, (text, _, _): Text) -> bool {
    let due = read_schedule(alloc, text.as_bytes());
    refuse(alloc, number);
    let answer = read_schedule(alloc, text.as_bytes());
    let refused = was_refused(alloc);
    let is_memory = matches!(&answer, Err(ReadFault::OutOfMemory));
    holds(rt, refused && is_memory || are_alike(&answer, &due), text);
    refused
}

pub fn report(rt: &impl Abort, alloc: Global, number: usize, (text, due, ending): Text) -> bool {
    refuse(alloc, number);
    let answer = report_of(alloc, text.as_bytes());
    let refused = was_refused(alloc);
    match answer {
        Ok(found) => {
            holds(rt, found.as_slice() == due.as_bytes(), text);
            holds(rt, ending_of(&found) == ending, text);
        }
        Err(_) => holds(rt, refused, text),
    }
    refused
}

pub fn read_input(rt: &impl Abort, alloc: Global, number: usize, (text, _, _): Text) -> bool {
    let mut input = text.as_bytes();
    refuse(alloc, number);
    let answer = read_text(alloc, &mut input);
    let refused = was_refused(alloc);
    match answer {
        Ok(found) => holds(rt, found.as_slice() == text.as_bytes(), text),
        Err(fault) => holds(rt, refused && fault == RunFault::OutOfMemory, text),
    }
    refused
}

// Takes the bytes that it expects, and no memory.
#[derive(Drop)]
struct Output<'a> {
    rest: &'a [u8],
}

impl<'a> Write for Output<'a> {
    fn write(&mut self, buf: &[u8]) -> io::Result<usize> {
        match self.rest.strip_prefix(buf) {
            Some(rest) => {
                self.rest = rest;
                Ok(buf.len())
            }
            None => Ok(0),
        }
    }

    fn flush(&mut self) -> io::Result<()> {
        Ok(())
    }
}

// Whether all was written and it ended so, or memory was refused and nothing was written.
fn ends_as(
    answer: &Result<Ending, RunFault>,
    rest: &[u8],
    (_, due, ending): Text,
    refused: bool,
) -> bool {
    let status = if ending == Ending::Accepted { 0 } else { 1 };
    match answer {
        Ok(found) => *found == ending && rest.is_empty() && status_of(answer) == status,
        Err(fault) => refused && *fault == RunFault::OutOfMemory && rest.len() == due.len(),
    }
}

pub fn run_all(rt: &impl Abort, alloc: Global, number: usize, text: Text) -> bool {
    let mut input = text.0.as_bytes();
    let mut output = Output {
        rest: text.1.as_bytes(),
    };
    refuse(alloc, number);
    let answer = run(alloc, &mut input, &mut output);
    let refused = was_refused(alloc);
    holds(rt, ends_as(&answer, output.rest, text, refused), text.0);
    refused
}
