//! The step of a changed lock.

ghost use Rattle.std.specs.Prelude.{◌≡◌, ◌<◌, ◌≤◌, length};
ghost use Rattle.lk_why.specs.Makes.{Leaves};
ghost use Rattle.lk_why.specs.Steps.{first_half, last_half, returned, step_by, step_so, Stepped};
ghost use Rattle.lk_why.specs.Types.{Exchange, Split};
ghost use Rattle.lk_why.specs.invariants.Ready.{AreWords, IsHalf, IsReady, IsValue};

use crate::How;
use crate::altered::{finding, leaving_out, sight, step_on, waiting};
use crate::halves::{acts_in, loaded, overtaken, overtaking, storing};
use crate::made::{Made, copy_of};
use arrayvec::ArrayVec;
use lk_locks::{Added, Entry, Op, Outcome, Phase, Shape, operation_of};

// A release returns, and leaves the words.
fn returned(t: u8, words: &[u64]) -> Made
    requires { length words.now ≤ 9 }
    ensures { Leaves (returned words.now t) result }
{
    Made {
        words: copy_of(words),
        phase: Phase::Idle,
        half: None,
        outcome: Outcome::Left,
        entries: Added::ActAndReturn(Op::Release).entries(t),
    }
}

// The first half of a step: the words that it leaves, and the value that it loads.
fn first_half(
    value: Option<u64>,
    words: &[u64],
    phase: Phase,
    entries: ArrayVec<Entry, 3>,
    whole: Made,
) -> Made
    requires { length words.now ≤ 9 }
    ensures { (step : Stepped) → Leaves step whole
        → Leaves (first_half value words.now phase entries.items step) result }
{
    if value.is_none() {
        return whole;
    }
    Made {
        words: copy_of(words),
        phase,
        half: value,
        outcome: Outcome::Moved,
        entries,
    }
}

// A load in place of a read-modify-write.
fn split(shape: Shape, t: u8, words: &[u64], phase: Phase) -> Made
    requires thread { t < shape.threads }
    requires words { AreWords shape words.now }
    requires phase { IsReady shape phase }
    ensures { Leaves (step_by Split shape.kind shape.bits words.now t phase) result }
{
    let value = loaded(words, operation_of(shape.kind(), shape.bits(), t, phase));
    let whole = step_on(shape, t, words, phase);
    first_half(value, words, phase, ArrayVec::new(), whole)
}

// The step after a write, in place of the write.
fn exchanged(shape: Shape, t: u8, words: &[u64], phase: Phase) -> Made
    requires thread { t < shape.threads }
    requires words { AreWords shape words.now }
    requires phase { IsReady shape phase }
    ensures { Leaves (step_by Exchange shape.kind shape.bits words.now t phase) result }
{
    let (kind, bits) = (shape.kind(), shape.bits());
    let whole = step_on(shape, t, words, phase);
    let next = whole.phase;
    let (step, after) = (
        operation_of(kind, bits, t, phase),
        operation_of(kind, bits, t, next),
    );
    let ahead = step_on(shape, t, words, next);
    let acts = acts_in(ahead.entries.as_slice());
    let value = overtaking(words, step, after);
    first_half(value, ahead.words.as_slice(), phase, acts, whole)
}

// A step that is changed so.
fn step_by(shape: Shape, t: u8, words: &[u64], phase: Phase, how: How) -> Made
    requires thread { t < shape.threads }
    requires words { AreWords shape words.now }
    requires phase { IsReady shape phase }
    ensures { Leaves (step_by how shape.kind shape.bits words.now t phase) result }
{
    match how {
        How::LeaveOut(written) => leaving_out(shape, t, words, phase, written),
        How::Find(found) => {
            let seen = sight(shape, t, words, phase, found);
            finding(shape, t, words, phase, seen)
        }
        How::Return => returned(t, words),
        How::Wait => waiting(shape, t, words, phase),
        How::Split => split(shape, t, words, phase),
        How::Exchange => exchanged(shape, t, words, phase),
    }
}

/// A step of thread `t` from this phase, of which half is still to come if a value is given.
pub fn step_so(
    shape: Shape,
    t: u8,
    words: &[u64],
    phase: Phase,
    how: Option<How>,
    half: Option<u64>,
) -> Made
    requires thread { t < shape.threads }
    requires words { AreWords shape words.now }
    requires phase { IsReady shape phase }
    requires half { IsHalf shape half }
    ensures { Leaves (step_so how half shape.kind shape.bits words.now t phase) result }
{
    match (how, half) {
        (Some(how), None) => step_by(shape, t, words, phase, how),
        (Some(How::Split), Some(value)) => storing(shape, t, words, phase, value),
        (Some(How::Exchange), Some(value)) => overtaken(shape, t, words, phase, value),
        _ => step_on(shape, t, words, phase),
    }
}
