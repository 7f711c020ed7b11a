//! The sentence of a move: that of its kind of transition, with the values of the move.

use lk_catalogue::{Kind, Observed, kinds_of, place_of};
use lk_search::phase_code;
use lk_text::phrases::{Lock, called};
use lk_text::{Text, Value};
use lk_trace::{Made, TraceLine, name_at};
use std::fmt::InlineText;

// The kind of transition of a move that was made on this lock.
fn kind_of(lock: &Lock, line: TraceLine, made: Made) -> Option<Kind> {
    let machine = lock.machine();
    if line.thread >= machine.threads() {
        return None;
    }
    let transition = Observed {
        from: made.from,
        action: line.action,
        outcome: made.outcome,
        after: machine.phase(line.thread),
    };
    let place = place_of(lock.kind(), transition)?;
    kinds_of(lock.kind()).get(place).copied()
}

// The name of a lock's word at this place, and its value. A lock with fewer words has none there.
fn word_at(lock: &Lock, place: usize) -> (InlineText<40>, u64) {
    let value = lock.machine().words().as_slice().get(place);
    match (name_at(lock.kind(), place), value) {
        (Some(name), Some(value)) => (InlineText::of(name), *value),
        _ => (InlineText::new(), 0),
    }
}

// The thread whose record has this number, from 1 on, or nil.
fn record_of(number: u64, names: &[String]) -> Value<'_> {
    match number.checked_sub(1) {
        Some(thread) if thread < 64 => called(thread as u8, names),
        _ => Value::Text("nil"),
    }
}

/// Writes the sentence of a move that was made on this lock, without a full stop.
pub fn put_sentence(text: &mut Text, names: &[String], lock: &Lock, line: TraceLine, made: Made) {
    let Some(kind) = kind_of(lock, line, made) else {
        return;
    };
    let (_, number) = phase_code(made.from);
    let (found, left) = made
        .effect
        .map_or((0, 0), |effect| (effect.found, effect.left));
    let [first, second, third] = [word_at(lock, 0), word_at(lock, 1), word_at(lock, 2)];
    let places = [
        ("who", called(line.thread, names)),
        ("found", Value::Number(found)),
        ("left", Value::Number(left)),
        ("number", Value::Number(number)),
        ("finds", record_of(found, names)),
        ("other", record_of(number.saturating_add(1), names)),
        (first.0.as_str(), Value::Number(first.1)),
        (second.0.as_str(), Value::Number(second.1)),
        (third.0.as_str(), Value::Number(third.1)),
    ];
    text.fill(kind.says, &places);
}
