//! Phrases for many places: the name of a thread, a line of a trace, and who holds a lock and who
//! is in its queue.

ghost use Rattle.std.specs.Prelude.{◌++◌, codes, decimal};
ghost use Rattle.lk_lines.specs.Vocabulary.{move_name};
ghost use Rattle.lk_text.specs.Texts.{Adds, Grows};

use crate::{Text, Value};
use lk_lines::{move_text, outcome_text};
use lk_locks::{Family, Holders, Move, Tracker, family_of};
use lk_trace::{Seen, TraceLine, WordName};
use lk_words::WordArray;
use std::fmt::InlineText;

/// A lock that is followed along a trace.
pub type Lock = Tracker<WordArray>;

/// A thread as it is called: by its number if it has no name.
pub fn called(thread: u8, names: &[String]) -> Value<'_> {
    match names.get(thread as usize) {
        Some(name) => Value::Text(name.as_str()),
        None => Value::Numbered("thread", u64::from(thread)),
    }
}

/// Writes a move as a schedule has it.
pub fn put_move(text: &mut Text, thread: u8, action: Move)
    ensures { Adds (decimal thread ++ codes " " ++ move_name action) text.old text.new }
{
    text.put_number(u64::from(thread));
    text.put(" ");
    text.put(move_text(action));
}

// Writes a part of a line and its value, if it is given.
fn put_part(text: &mut Text, part: &str, value: Option<u64>)
    ensures { Grows text.old text.new }
{
    if let Some(value) = value {
        text.put(part);
        text.put_number(value);
    }
}

// Writes the word that a step of this thread was on. `of` is left out of the thread's own record.
fn put_word(text: &mut Text, thread: u8, word: WordName) {
    match word {
        WordName::Next(owner) if owner == thread => text.put(" next"),
        WordName::Locked(owner) if owner == thread => text.put(" locked"),
        _ => {
            text.put(" ");
            text.put(InlineText::<40>::of(word).as_str());
        }
    }
}

// Writes what a step saw.
fn put_seen(text: &mut Text, thread: u8, seen: Seen) {
    match seen {
        Seen::Nothing => {}
        Seen::OnWord {
            word,
            found,
            left,
            wrote,
        } => {
            put_word(text, thread, word);
            put_part(text, " found ", found);
            put_part(text, " left ", left);
            text.put(match wrote {
                Some(true) => " done",
                Some(false) => " failed",
                None => "",
            });
        }
        Seen::WithOutcome { count, outcome } => {
            put_part(text, " ", count);
            if let Some(outcome) = outcome {
                text.put(" ");
                text.put(outcome_text(outcome));
            }
        }
    }
}

/// Writes a line of a trace, without its end.
pub fn put_line(text: &mut Text, line: &TraceLine) {
    put_move(text, line.thread, line.action);
    put_seen(text, line.thread, line.seen);
}

/// Writes a list of threads after these words, or `nobody`.
pub fn put_threads(text: &mut Text, front: &str, threads: &[u8]) {
    text.put(front);
    if threads.is_empty() {
        text.put("nobody");
    }
    for (place, thread) in threads.iter().enumerate() {
        text.put(if place > 0 { "," } else { "" });
        text.put_number(u64::from(*thread));
    }
}

// Writes who is in the queue of a lock.
fn put_queue(text: &mut Text, lock: &Lock) {
    let queue = lock.queue();
    match family_of(lock.kind()) {
        Family::ReadWrite => {}
        Family::FifoReadWrite => put_threads(text, "; announced ", queue.as_slice()),
        Family::Queue if queue.is_empty() => text.put("; queue empty"),
        Family::Queue => put_threads(text, "; queue ", queue.as_slice()),
    }
}

/// Writes who holds a lock, and who is in its queue.
pub fn put_standing(text: &mut Text, lock: &Lock) {
    match lock.holders() {
        Holders::Nobody => put_threads(text, "held by ", &[]),
        Holders::Holder(thread) => put_threads(text, "held by ", &[thread]),
        Holders::Readers(threads) => put_threads(text, "read by ", threads.as_slice()),
        Holders::Writer(thread) => put_threads(text, "written by ", &[thread]),
    }
    put_queue(text, lock);
}
