//! Notes that help to see why a run ended. Of a refused move they tell the moves of its thread
//! before it, the last write to its word, and a poll after which the thread should have waited, or
//! should not. Of a run that hangs they tell what each thread waits for, by the words of its lock,
//! and the last move of a thread that has ended inside a call.

ghost use Rattle.std.specs.Prelude.{◌<◌, length};

use crate::course::{Course, Fate, Step};
use crate::phrases::{Lock, called, put_line};
use crate::report::Notes;
use crate::{Text, Value};
use lk_catalogue::{Awaited, polled_for};
use lk_lines::move_text;
use lk_locks::{Move, Op, Outcome, Refusal};
use lk_trace::{Difference, TraceLine, WordName, name_at};
use std::fmt::InlineText;

// The word that a thread's next step is on, if it is on one, and its place.
fn next_word(lock: &Lock, thread: u8) -> Option<(WordName, usize)> {
    let machine = lock.machine();
    if thread >= machine.threads() {
        return None;
    }
    let place = machine.operation(thread)?.word();
    Some((name_at(lock.kind(), place)?, place))
}

// The name of a word, or nothing.
fn word_value<'a>(word: Option<WordName>) -> Value<'a> {
    Value::Short(word.map_or(InlineText::new(), |word| InlineText::of(word)))
}

// The wait of a thread.
fn due_value<'a>(awaited: Awaited) -> Value<'a> {
    match awaited {
        Awaited::Ticket(due) | Awaited::Value(due) | Awaited::Other(due) => Value::Number(due),
        Awaited::Section(due) => Value::Short(InlineText::of(due)),
    }
}

// The deed of a thread after its last poll, if it should have done otherwise.
fn did_after(outcome: Outcome, action: Move, refusal: Refusal) -> Option<&'static str> {
    match (outcome, refusal, action) {
        (
            Outcome::Waits,
            Refusal::Busy,
            Move::Call(Op::Release | Op::ReadUnlock | Op::WriteUnlock | Op::Downgrade),
        ) => Some("entered"),
        (Outcome::Waits, Refusal::Busy | Refusal::WrongStep { .. }, _) => Some("went on"),
        (Outcome::Entered | Outcome::Left, Refusal::NoCall, _) => {
            Some("did not see its call end")
        }
        _ => None,
    }
}

// A sentence about a poll: of one on a word, or of a section.
fn poll_sentence(is_on_word: bool, awaited: Option<Awaited>) -> &'static str {
    match awaited {
        Some(Awaited::Ticket(_)) => {
            "{who} {did}: its {step} of {word} found {found} and its ticket is {due}"
        }
        Some(Awaited::Value(_)) => {
            "{who} {did}: its {step} of {word} found {found} and it waits for {due}"
        }
        Some(Awaited::Other(_)) => {
            "{who} {did}: its {step} of {word} found {found} and it waits for another value than \
                {due}"
        }
        Some(Awaited::Section(_)) => "{who} {did}: its {step} waits for {due}",
        None if is_on_word => "{who} {did}: its {step} of {word} found {found}",
        None => "{who} {did}: its {step}",
    }
}

// Says what the last poll of a thread found, and what it polls for.
fn put_poll(notes: &mut Notes, lock: &Lock, step: Step, did: &str) {
    let awaited = polled_for(lock.kind(), step.made.from);
    let effect = step.made.effect;
    let word = effect.and_then(|effect| name_at(lock.kind(), effect.word));
    let places = [
        ("who", called(step.line.thread, &[])),
        ("did", Value::Text(did)),
        ("step", Value::Text(move_text(step.line.action))),
        ("word", word_value(word)),
        (
            "found",
            Value::Number(effect.map_or(0, |effect| effect.found)),
        ),
        ("due", awaited.map_or(Value::Text(""), |due| due_value(due))),
    ];
    let sentence = poll_sentence(word.is_some(), awaited);
    notes.say_in("", step.number, sentence, &places);
}

const LAST_WRITE: &str = "{word} was last written here: {who}'s {step} left {left}";

// Says who wrote the word last that the thread's next step is on.
fn put_write(notes: &mut Notes, lock: &Lock, course: &Course, thread: u8) {
    let Some((word, place)) = next_word(lock, thread) else {
        return;
    };
    if let Some((step, left)) = course.written(place) {
        let places = [
            ("word", word_value(Some(word))),
            ("who", called(step.line.thread, &[])),
            ("step", Value::Text(move_text(step.line.action))),
            ("left", Value::Number(left)),
        ];
        notes.say_in("", step.number, LAST_WRITE, &places);
    }
}

// Says which moves a thread made last.
fn put_steps(notes: &mut Notes, course: &Course, thread: u8) {
    let steps = course.steps(thread);
    for step in steps.iter().rev() {
        if let Some(step) = step {
            let mut said = notes.text();
            said.put("before it: ");
            put_line(&mut said, &step.line);
            notes.put_in("", step.number, said);
        }
    }
}

/// Says what helps to see why the move in this line is refused: of one that comes after a poll also
/// what that found, if the thread should have done otherwise.
pub fn put_blame(
    notes: &mut Notes,
    lock: &Lock,
    course: &Course,
    line: TraceLine,
    why: Difference,
) {
    put_steps(notes, course, line.thread);
    match (why, course.steps(line.thread)[0]) {
        (Difference::Refused(refusal), Some(step)) => {
            if let Some(did) = did_after(step.made.outcome, line.action, refusal) {
                put_poll(notes, lock, step, did);
            }
        }
        (Difference::FoundOther { .. } | Difference::WroteOther { .. }, _) => {
            put_write(notes, lock, course, line.thread);
        }
        _ => {}
    }
}

/// The message about a run that hangs.
pub const HANGS: &str = "hangs: each thread that has not ended waits";

/// Whether a thread's next step, if it is in a call, would be no failed poll.
pub fn may_go_on(lock: &Lock, thread: u8) -> bool {
    let machine = lock.machine();
    thread < machine.threads()
        && machine
            .effect(thread)
            .is_some_and(|effect| effect.outcome() != Outcome::Waits)
}

// The wait of a thread that hangs, as a sentence.
fn wait_sentence(awaited: Awaited) -> &'static str {
    match awaited {
        Awaited::Ticket(_) => {
            "{who} waits from here on for {word} to be {due}, its ticket; {word} is {value}{missed}"
        }
        Awaited::Value(_) => {
            "{who} waits from here on for {word} to be {due}; {word} is {value}{missed}"
        }
        Awaited::Other(_) => {
            "{who} waits from here on for {word} to be other than {due}; {word} is {value}{missed}"
        }
        Awaited::Section(_) => "{who} waits from here on for {due}; {words}{missed}",
    }
}

const MISSED: &str = ", so it did not look again";

// Writes each word of a lock with its value.
fn put_words(text: &mut Text, lock: &Lock) {
    for (place, value) in lock.machine().words().as_slice().iter().enumerate() {
        if let Some(word) = name_at(lock.kind(), place) {
            let places = [
                ("word", Value::Short(InlineText::of(word))),
                ("value", Value::Number(*value)),
            ];
            text.put(if place > 0 { ", " } else { "" });
            text.fill("{word} is {value}", &places);
        }
    }
}

// Says what a thread waits for, and since which line of its file.
fn put_wait(notes: &mut Notes, lock: &Lock, thread: u8, file: &str, since: u64)
    requires { thread < length lock.now.state.phases }
{
    let Some(awaited) = polled_for(lock.kind(), lock.machine().phase(thread)) else {
        return;
    };
    let (word, place) = next_word(lock, thread).unzip();
    let value = place.and_then(|place| lock.machine().words().as_slice().get(place));
    let mut words = notes.text();
    if let Awaited::Section(_) = awaited {
        put_words(&mut words, lock);
    }
    let missed = if may_go_on(lock, thread) { MISSED } else { "" };
    let places = [
        ("who", Value::Numbered("thread", u64::from(thread))),
        ("word", word_value(word)),
        ("due", due_value(awaited)),
        ("value", Value::Number(value.copied().unwrap_or(0))),
        ("words", Value::Part(&words)),
        ("missed", Value::Short(InlineText::of(missed))),
    ];
    notes.say_in(file, since, wait_sentence(awaited), &places);
}

// Says of a thread that has ended inside a call which move was its last one.
fn put_end(notes: &mut Notes, lock: &Lock, course: &Course, thread: u8, file: &str)
    requires { thread < length lock.now.state.phases }
{
    let [Some(step), ..] = course.steps(thread) else {
        return;
    };
    if lock.machine().next_step(thread).is_some() {
        let mut said = notes.text();
        let places = [("who", called(thread, &[]))];
        said.fill("{who} has ended inside a call, after '", &places);
        put_line(&mut said, &step.line);
        said.put("'");
        notes.put_in(file, step.number, said);
    }
}

/// Says of each thread that hangs what it waits for, and since which line of its file, and of each
/// that has ended inside a call after which line. If a thread has no file of its own, it is the one
/// that the message is about.
pub fn put_waits(notes: &mut Notes, lock: &Lock, course: &Course, files: &[&str]) {
    for thread in 0..lock.machine().threads() {
        let file = files.get(thread as usize).copied().unwrap_or("");
        match course.fate(thread) {
            Fate::Hangs => {
                put_wait(notes, lock, thread, file, course.since(thread).unwrap_or(0));
            }
            Fate::Ended => put_end(notes, lock, course, thread, file),
            Fate::Moved | Fate::Waits => {}
        }
    }
}
