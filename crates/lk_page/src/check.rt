//! The check of a trace, up to its first fault: a record of each move that is made, and how the
//! text ended. Programs in other languages see both as C does, by `built/locktrace.h`.

ghost use Rattle.std.specs.Prelude.{◌≡◌, slice_set};
ghost use Rattle.lk_trace.specs.Traces.{after_text_line, event_of};
ghost use Rattle.lk_page.specs.Checking.{answer_by, checked_text, end_of, next_record, record_of};
ghost use Rattle.lk_page.specs.Checking.{steps_by};

use crate::fault_texts::difference_number;
use lk_lines::cut_line;
use lk_locks::Move;
use lk_trace::{Event, Made, TextFault, TraceReader, fault_number, move_number, outcome_number};

/// A move that was made. `word` is the number of its word, or the greatest number if it is on none;
/// what it found and left is 0 then.
#[repr(C)]
#[derive(Clone, Copy)]
pub struct LtStep {
    pub line: u64,
    pub found: u64,
    pub left: u64,
    pub thread: u32,
    pub action: u32,
    pub outcome: u32,
    pub word: u32,
}

/// How a trace ended: the number of its fault, 0 if all is accepted, its line, and how many
/// moves were made.
#[repr(C)]
#[derive(Clone, Copy)]
pub struct LtAnswer {
    pub line: u64,
    pub moves: u64,
    pub fault: u32,
    pub threads: u32,
}

// The record of a move that was made. A lock has at most 129 words.
fn step_of(line: u64, thread: u8, action: Move, made: Made) -> LtStep
    ensures { result ≡ record_of line thread action made }
{
    let (found, left) = made
        .effect
        .map_or((0, 0), |effect| (effect.found, effect.left));
    LtStep {
        line,
        found,
        left,
        thread: u32::from(thread),
        action: u32::from(move_number(action)),
        outcome: u32::from(outcome_number(made.outcome)),
        word: match made.effect {
            Some(effect) if effect.word < 129 => effect.word as u32,
            _ => u32::MAX,
        },
    }
}

// The record of the step that a thread makes next, or of no step.
fn next_step_of(trace: &TraceReader, line: u64, thread: u8) -> LtStep
    ensures { result ≡ next_record trace.now line thread }
{
    let next = match trace.checker() {
        Some(checker) => checker.next_made(thread),
        None => None,
    };
    match next {
        Some((action, made)) => step_of(line, thread, action, made),
        None => LtStep {
            line: 0,
            found: 0,
            left: 0,
            thread: 0,
            action: 0,
            outcome: 0,
            word: u32::MAX,
        },
    }
}

// Writes record number `count`, if there is room.
fn write_step(steps: &mut [LtStep], count: u64, step: LtStep)
    ensures { steps.new ≡ slice_set steps.old count step }
{
    if count < steps.len() as u64 {
        steps[count as usize] = step;
    }
}

// Reads a line, and tells its result.
fn check_line(trace: &mut TraceReader, line: &[u8], steps: &mut [LtStep], answer: &mut LtAnswer)
    ensures after { trace.new ≡ after_text_line trace.old line.now }
    ensures answer { answer.new ≡ answer_by (event_of trace.old line.now) answer.old }
    ensures steps { steps.new ≡ steps_by (after_text_line trace.old line.now)
        (event_of trace.old line.now) answer.old steps.old }
{
    match trace.line(line) {
        Event::Skipped => {}
        Event::Began(header) => answer.threads = u32::from(header.threads()),
        Event::Made(read, made) => {
            let step = step_of(answer.line, read.thread, read.action, made);
            write_step(steps, answer.moves, step);
            answer.moves = answer.moves.saturating_add(1);
        }
        Event::Differs(read, difference) => {
            let step = next_step_of(trace, answer.line, read.thread);
            write_step(steps, answer.moves, step);
            answer.fault = difference_number(difference);
        }
        Event::Fault(fault) => answer.fault = u32::from(fault_number(fault)),
    }
}

// Tells the end of a text: a fault in the line after its last, if it has no header.
fn check_end(trace: &TraceReader, answer: &mut LtAnswer)
    ensures { answer.new ≡ end_of trace.now answer.old }
{
    if let None = trace.checker() {
        answer.line = answer.line.saturating_add(1);
        answer.fault = u32::from(fault_number(TextFault::NoHeader));
    }
}

/// Reads a text up to its first fault.
pub fn check_text(text: &[u8], steps: &mut [LtStep], answer: &mut LtAnswer)
    ensures answer { answer.new ≡ (checked_text answer.old steps.old text.now).answer }
    ensures steps { steps.new ≡ (checked_text answer.old steps.old text.now).steps }
{
    let mut trace = TraceReader::new();
    let mut rest = text;
    while !rest.is_empty() {
        let (line, after) = cut_line(rest);
        answer.line = answer.line.saturating_add(1);
        check_line(&mut trace, line, steps, answer);
        if answer.fault != 0 {
            return;
        }
        rest = after;
    }
    check_end(&trace, answer);
}
