//! The job of explaining a trace: each move with what it found and left, by the words' names, and a
//! sentence; and why the first wrong one is wrong.

ghost use Rattle.std.specs.Prelude.{IfOk};
ghost use Rattle.lk_text.specs.Sources.{left_in};
ghost use Rattle.lk_text.specs.Verdicts.{EndsInput};

use crate::transitions::put_sentence;
use lk_lines::{MOVE_NAMES, move_named, outcome_text};
use lk_locks::{Machine, Move, SectionEffect};
use lk_text::follow::follow_file;
use lk_text::formats::{BARE, PLAIN, lose_with, put_said, put_text};
use lk_text::phrases::{Lock, put_move, put_standing};
use lk_text::report::{Ending, Report};
use lk_text::{Failure, Text, Value};
use lk_trace::{Event, Made, TraceLine, TraceReader, name_at};
use lk_words::{Effect, WordArray};
use std::alloc::Global;
use std::fmt::InlineText;
use std::io::Write;
use std::rt::Runtime;

/// The lines to explain, and the names of the threads.
#[derive(Drop)]
pub struct ExplainJob {
    /// A file `-` is standard input.
    pub file: String,
    /// The first and the last line, from 1.
    pub lines: (u64, u64),
    pub names: Vec<String>,
}

const SAME: &str = ", {word} {found}";

const CHANGED: &str = ", {word} {found} to {left}";

const THREADS: &str = "  the lock has {threads} threads, from 0 on\n";

// Writes what a step found and left.
fn put_values(text: &mut Text, lock: &Lock, effect: Effect) {
    let Some(word) = name_at(lock.kind(), effect.word) else {
        return;
    };
    let places = [
        ("word", Value::Short(InlineText::of(word))),
        ("found", Value::Number(effect.found)),
        ("left", Value::Number(effect.left)),
    ];
    let stays = effect.found == effect.left;
    text.fill(if stays { SAME } else { CHANGED }, &places);
}

// Writes the words that a section changed.
fn put_changes(text: &mut Text, lock: &Lock, section: SectionEffect) {
    for change in [section.first, section.second] {
        if let Some(effect) = change {
            put_values(text, lock, effect);
        }
    }
}

// Writes what a move that was made found and left, its sentence, and who holds and waits then.
fn put_made(text: &mut Text, job: &ExplainJob, lock: &Lock, line: TraceLine, made: Made) {
    if let Some(effect) = made.effect {
        put_values(text, lock, effect);
    }
    if let Some(section) = made.section {
        put_changes(text, lock, section);
    }
    text.put("; ");
    put_sentence(text, &job.names, lock, line, made);
    text.put("; ");
    put_standing(text, lock);
    text.put("\n");
}

// Writes the calls of a thread that would be accepted.
fn put_calls(text: &mut Text, machine: &Machine<WordArray>, thread: u8) {
    text.put("  accepted would be:");
    for word in MOVE_NAMES {
        if let Some(action) = move_named(word.as_bytes())
            && machine.check(thread, action).is_ok()
        {
            text.put(" ");
            put_move(text, thread, action);
        }
    }
    text.put("\n");
}

// Writes what a thread could do: its next step, or the calls that would be accepted.
fn put_due(text: &mut Text, machine: &Machine<WordArray>, thread: u8) {
    let threads = machine.threads();
    if thread >= threads {
        let threads = Value::Number(u64::from(threads));
        return text.fill(THREADS, &[("threads", threads)]);
    }
    let Some(next) = machine.next_step(thread) else {
        return put_calls(text, machine, thread);
    };
    text.put("  due: ");
    put_move(text, thread, Move::Step(next));
    text.put("\n");
}

// Describes the move of a line, if it is asked for.
fn put_event(text: &mut Text, job: &ExplainJob, trace: &TraceReader, number: u64, event: &Event) {
    let Some(checker) = trace.checker() else {
        return;
    };
    let (lock, (first, last)) = (checker.lock(), job.lines);
    match event {
        Event::Made(line, made) if first <= number && number <= last => {
            text.put_number(number);
            text.put(": ");
            put_move(text, line.thread, line.action);
            text.put(": ");
            text.put(outcome_text(made.outcome));
            put_made(text, job, lock, *line, *made);
        }
        _ => {}
    }
}

// Writes what the thread of a refused move could do.
fn put_due_after(text: &mut Text, trace: &TraceReader, event: &Event) {
    if let (Event::Differs(line, _), Some(checker)) = (event, trace.checker()) {
        put_due(text, checker.lock().machine(), line.thread);
    }
}

const ENDS: &str = "{line}: {text}\n";

const MORE: &str = "  {text}\n";

const HELP: &str = "  help: {text}\n";

const MORE_AT: &str = "  {line}: {text}\n";

// Writes why a trace ends. The moves before it were explained.
fn put_end(text: &mut Text, report: &Report) {
    let hangs = report.ending == Ending::Hangs;
    let (front, more) = if hangs { (BARE, MORE_AT) } else { (ENDS, MORE) };
    put_said(text, front, report.line, &report.message);
    if report.ending != Ending::Refused {
        for note in report.notes.as_slice() {
            put_said(text, more, note.line, &note.text);
        }
        lose_with(text, &report.notes);
    }
    put_said(text, MORE, 0, &report.standing);
    put_said(text, HELP, 0, &report.help);
}

/// Describes each move of a trace that is asked for, and gives the ending of the trace.
///
/// # Errors
///
/// The output failed, or a request for memory was refused. An input that fails is no error: that is
/// told and answered.
pub fn explain_trace<R: Runtime, O: Write>(
    rt: &R,
    alloc: Global,
    job: &ExplainJob,
    output: &mut O,
    errors: &mut Text,
) -> Result<Ending, Failure>
    ensures { IfOk result
        (λ ending. EndsInput (left_in R.File.remaining R.Reader.remaining) ending) }
{
    let (mut text, mut due) = (Text::new(alloc), Text::new(alloc));
    let each = |number: u64, trace: &TraceReader, event: Event| -> Result<(), Failure> {
        put_event(&mut text, job, trace, number, &event);
        put_due_after(&mut due, trace, &event);
        text.write_waiting(output)
    };
    let report = follow_file(rt, alloc, &job.file, &job.names, each)?;
    match report.ending {
        Ending::Accepted => {}
        Ending::Refused | Ending::Faulty | Ending::Hangs => put_end(&mut text, &report),
        Ending::Unread => put_text(errors, &job.file, &report, PLAIN),
    }
    text.write_to(output)?;
    due.write_to(output)?;
    output.flush()?;
    Ok(report.ending)
}
