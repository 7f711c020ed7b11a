//! The facts of a line of a sketch after `is`: who holds the lock, who is in its queue, in which
//! phase a thread is, and which value a word has. Phases and words have the names that the locks
//! give them.

use lk_lines::{number_of, whole_number};
use lk_locks::{Shape, words_needed};
use lk_search::{Fact, phase_of};
use lk_trace::name_at;
use std::alloc::{AllocError, Global};
use std::fmt::{InlineText, ToDebug};

/// How a line begins that asks for a position.
pub const IS: &str = "is ";

// How many phases have a code.
const PHASES: u8 = 24;

// The number of a thread of this lock.
fn thread_in(header: Shape, text: &str) -> Option<u8> {
    number_of(text.as_bytes(), 0, header.threads().saturating_sub(1))
}

// The code of the phase with this name. What a phase carries is no part of its name.
fn phase_named(name: &str) -> Option<u8> {
    (0..PHASES).find(|code| {
        let whole = InlineText::<64>::of(phase_of(u64::from(*code), 0).debug());
        whole.as_str().split('(').next() == Some(name)
    })
}

// The value of a word, after its name.
fn value_of(text: &str, name: &str) -> Option<u64> {
    let value = text.strip_prefix(name)?.strip_prefix(' ')?;
    whole_number(value.as_bytes())
}

// The value of one of the lock's words.
fn word_fact(header: Shape, text: &str) -> Option<Fact> {
    for place in 0..words_needed(header.kind(), header.threads()) {
        let name = InlineText::<32>::of(name_at(header.kind(), place)?);
        if let Some(value) = value_of(text, name.as_str()) {
            return Some(Fact::Word { place, value });
        }
    }
    None
}

// The fact that a text says: `hold 0`, `1 at SetLocked`, `next of 0 2`.
fn fact_of(header: Shape, text: &str) -> Option<Fact> {
    if let Some(thread) = text.strip_prefix("hold ") {
        return thread_in(header, thread).map(Fact::Holds);
    }
    match text.split_once(" at ") {
        Some((thread, phase)) => Some(Fact::At {
            thread: thread_in(header, thread)?,
            code: phase_named(phase)?,
        }),
        None => word_fact(header, text),
    }
}

// Whether a list of threads has this one.
fn is_listed(header: Shape, list: &str, thread: u8) -> bool {
    list.split(',')
        .any(|name| thread_in(header, name) == Some(thread))
}

// Adds the order of a queue: who is first, and who comes directly after whom. Answers whether the
// list is one of threads.
fn add_order(header: Shape, list: &str, facts: &mut Vec<Fact>) -> Result<bool, AllocError> {
    let mut last = None;
    for name in list.split(',') {
        let Some(thread) = thread_in(header, name) else {
            return Ok(false);
        };
        facts.push(match last {
            Some(ahead) => Fact::After { ahead, thread },
            None => Fact::First(thread),
        })?;
        last = Some(thread);
    }
    Ok(true)
}

// Adds that these threads are in the queue, in this order, and no others. `-` is no thread. Answers
// whether the list is one of threads.
fn add_queue(header: Shape, list: &str, facts: &mut Vec<Fact>) -> Result<bool, AllocError> {
    if list != "-" && !add_order(header, list, facts)? {
        return Ok(false);
    }
    for thread in 0..header.threads() {
        if !is_listed(header, list, thread) {
            facts.push(Fact::Outside(thread))?;
        }
    }
    Ok(true)
}

/// The facts of a lock of this shape that a text says, with `, ` between them: `hold 0`,
/// `queue 0,1`, `1 at SetLocked`, `next of 0 2`. `None` if some part of it says none.
pub fn facts_of(alloc: Global, header: Shape, text: &str) -> Result<Option<Vec<Fact>>, AllocError> {
    let mut facts = Vec::new(alloc);
    for part in text.split(", ") {
        if let Some(list) = part.strip_prefix("queue ") {
            if !add_queue(header, list, &mut facts)? {
                return Ok(None);
            }
        } else if let Some(fact) = fact_of(header, part) {
            facts.push(fact)?;
        } else {
            return Ok(None);
        }
    }
    Ok(Some(facts))
}
