//! Steps of a changed lock in two halves: a load and a store, and a write that comes late.

ghost use Rattle.std.specs.Prelude.{◌≡◌, ◌<◌, ◌≤◌, length};
ghost use Rattle.std.specs.List.{filter};
ghost use Rattle.lk_why.specs.Halves.{is_act, is_no_act, loaded, overtaking, storing, stores};
ghost use Rattle.lk_why.specs.Makes.{Leaves};
ghost use Rattle.lk_why.specs.Steps.{late, made};
ghost use Rattle.lk_why.specs.invariants.Ready.{AreWords, IsHalf, IsReady, IsValue};

use crate::altered::{step_on, word_or_0};
use crate::made::{Made, copy_of, with_word, word_at};
use arrayvec::ArrayVec;
use lk_locks::{Entry, Phase, Shape, operation_of};
use lk_words::Operation;

/// The value that a read-modify-write loads.
pub fn loaded(words: &[u64], operation: Option<Operation>) -> Option<u64>
    ensures { result ≡ loaded words.now operation }
{
    match operation {
        Some(
            Operation::Swap { word, .. }
            | Operation::CompareAndSwap { word, .. }
            | Operation::FetchAndAdd { word, .. },
        ) => Some(word_at(words, word)),
        _ => None,
    }
}

/// The acts among the entries of a step.
pub fn acts_in(entries: &[Entry]) -> ArrayVec<Entry, 3>
    requires { length entries.now ≤ 3 }
    ensures { result.items ≡ filter is_act entries.now }
{
    let mut acts = ArrayVec::new();
    for entry in entries {
        if matches!(*entry, Entry::Acted(..)) {
            acts.push(*entry);
        }
    }
    acts
}

/// The entries of a step that are no acts.
pub fn returns_in(entries: &[Entry]) -> ArrayVec<Entry, 3>
    requires { length entries.now ≤ 3 }
    ensures { result.items ≡ filter is_no_act entries.now }
{
    let mut others = ArrayVec::new();
    for entry in entries {
        if !matches!(*entry, Entry::Acted(..)) {
            others.push(*entry);
        }
    }
    others
}

// Whether a read-modify-write that loaded this value stores one.
fn stores(value: u64, operation: Option<Operation>) -> bool
    ensures { result ≡ stores value operation }
{
    match operation {
        Some(Operation::CompareAndSwap { old, .. }) => value == old,
        _ => true,
    }
}

/// The store of a read-modify-write that loaded this value.
pub fn storing(shape: Shape, t: u8, words: &[u64], phase: Phase, value: u64) -> Made
    requires thread { t < shape.threads }
    requires words { AreWords shape words.now }
    requires phase { IsReady shape phase }
    requires value { IsValue shape value }
    ensures { Leaves (made
        (storing value shape.kind shape.bits words.now t phase)) result }
{
    let operation = operation_of(shape.kind(), shape.bits(), t, phase);
    let word = word_or_0(operation);
    let mut made = step_on(shape, t, with_word(words, word, value).as_slice(), phase);
    made.words = if stores(value, operation) {
        with_word(words, word, word_at(made.words.as_slice(), word))
    } else {
        copy_of(words)
    };
    made
}

/// The value that the step after a write loads, if it may come first.
pub fn overtaking(words: &[u64], step: Option<Operation>, next: Option<Operation>) -> Option<u64>
    ensures { result ≡ overtaking words.now step next }
{
    match (step, next) {
        (Some(Operation::Write { .. }), Some(Operation::Write { .. })) => Some(0),
        (Some(Operation::Write { .. }), _) => loaded(words, next),
        _ => None,
    }
}

/// A write, after the step that follows it has loaded this value: that step's phase and outcome.
pub fn overtaken(shape: Shape, t: u8, words: &[u64], phase: Phase, value: u64) -> Made
    requires thread { t < shape.threads }
    requires words { AreWords shape words.now }
    requires phase { IsReady shape phase }
    requires value { IsValue shape value }
    ensures { Leaves (late value shape.kind shape.bits words.now t phase) result }
{
    let write = step_on(shape, t, words, phase);
    let next = write.phase;
    let word = word_or_0(operation_of(shape.kind(), shape.bits(), t, next));
    let mut made = step_on(shape, t, with_word(words, word, value).as_slice(), next);
    made.words = write.words;
    made.entries = returns_in(made.entries.as_slice());
    made
}
