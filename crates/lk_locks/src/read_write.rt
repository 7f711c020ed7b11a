//! The common part of the two read-write locks: their calls, and their one kind of step. A lock's
//! own table has the values that a section leaves in the words that it finds.
//!
//! After Herlihy and Shavit, The Art of Multiprocessor Programming, chapter 8. `Downgrade` is an
//! addition.

ghost use Rattle.std.specs.Prelude.{◌≡◌, ◌<◌, ◌≤◌, ◌^◌, List, ℕ, IfSome, length, slice_index};
ghost use Rattle.lk_locks.specs.Change.{Makes};
ghost use Rattle.lk_locks.specs.read_write.{word_count, after_call, step_due, step};
ghost use Rattle.lk_locks.specs.read_write.{Tells, change_to, effect};
ghost use Rattle.lk_locks.specs.invariants.read_write.{IsSection, count_with, third_word};

use crate::entries::Next;
use crate::{Family, Op, Phase, SectionEffect, StepKind, rw_fifo, rw_simple};
use lk_words::{Effect, Operation, WordArray, Words};

/// A section: the words that it writes, each with its index and its new value, and what it makes of
/// its thread.
#[derive(Clone, Copy)]
pub struct Section {
    /// The write to the first word.
    pub first: Option<(usize, u64)>,
    pub other: Option<(usize, u64)>,
    pub next: Next,
}

impl Section {
    #[inline(always)]
    pub fn new(first: Option<(usize, u64)>, other: Option<(usize, u64)>, next: Next) -> Section
        ensures { result ≡ record { first = first; other = other; next = next } }
    {
        Section { first, other, next }
    }
}

/// The phase that a call leads to, if a thread in this phase may make it.
#[inline(always)]
pub fn after_call(phase: Phase, op: Op) -> Option<Phase>
    ensures { result ≡ after_call phase op }
{
    match (phase, op) {
        (Phase::Idle, Op::ReadLock) => Some(Phase::TryRead),
        (Phase::Reading, Op::ReadUnlock) => Some(Phase::LeaveRead),
        (Phase::Idle, Op::WriteLock) => Some(Phase::TryWrite),
        (Phase::Writing, Op::WriteUnlock) => Some(Phase::LeaveWrite),
        (Phase::Writing, Op::Downgrade) => Some(Phase::TryDowngrade),
        _ => None,
    }
}

/// The step that a thread takes next: a section, unless it is idle or inside.
#[inline(always)]
pub fn step_due(phase: Phase) -> Option<StepKind>
    ensures { result ≡ step_due phase }
{
    match phase {
        Phase::Idle | Phase::Reading | Phase::Writing => None,
        _ => Some(StepKind::Section),
    }
}

// A section of a thread in this phase that finds these words. The FIFO lock has a third one.
#[inline(always)]
fn section_on(bits: u8, first: u64, second: u64, third: Option<u64>, phase: Phase) -> Section
    requires least { 2 ≤ bits }
    requires most { bits ≤ 64 }
    ensures does { (family : Family) (ws : List ℕ) (t : ℕ) → slice_index ws 0 ≡ first
        → slice_index ws 1 ≡ second → third_word family ws ≡ third
        → IsSection result ws t (step family bits ws t phase) }
    ensures first { IfSome result.first (λ first. (first.0 ≡ 0) × (first.1 < 2 ^ bits)) }
    ensures other { IfSome result.other
        (λ other. (0 < other.0) × (other.0 < count_with third) × (other.1 < 2 ^ bits)) }
{
    match third {
        Some(flag) => rw_fifo::section(bits, first, second, flag, phase),
        None => rw_simple::section(bits, first, second, phase),
    }
}

// The third word of the FIFO lock, without an operation of a thread.
fn third_of(words: &WordArray, family: Family) -> Option<u64>
    requires { word_count family ≤ length words.now.0 }
    ensures { result ≡ third_word family words.now.0 }
{
    match family {
        Family::FifoReadWrite => Some(words.get(2)),
        _ => None,
    }
}

/// Makes one section of a thread in this phase.
#[tactic(auto, using(crate::proofs::Sections::count_of_third))]
#[inline(always)]
pub fn step<W: Words>(words: &mut W, family: Family, phase: Phase) -> Next
    requires { word_count family ≤ length (W.list words.old) }
    ensures change { (t : ℕ) → Makes (W.list words.new) t result
        (step family (W.width words.old) (W.list words.old) t phase) }
    ensures width { W.width words.new ≡ W.width words.old }
{
    let bits = words.bits();
    let (first, second) = (words.read(0), words.read(1));
    let third = match family {
        Family::FifoReadWrite => Some(words.read(2)),
        _ => None,
    };
    let section = section_on(bits, first, second, third, phase);
    if let Some((word, value)) = section.first {
        words.write(word, value);
    }
    if let Some((word, value)) = section.other {
        words.write(word, value);
    }
    section.next
}

// The change that a section's write makes. There is none if it writes nothing, or the word's value.
fn change_to(words: &WordArray, written: Option<(usize, u64)>) -> Option<Effect>
    requires { IfSome written (λ w. w.0 < length words.now.0) }
    ensures { result ≡ change_to words.now.0 written }
{
    let (word, value) = written?;
    let effect = words.effect(Operation::Write { word, value });
    (effect.found != value).then_some(effect)
}

/// The effect that a section of a thread in this phase would have. Nothing changes.
#[tactic(auto, using(crate::proofs::Sections::count_of_third))]
pub fn effect(words: &WordArray, family: Family, phase: Phase) -> SectionEffect
    requires { word_count family ≤ length words.now.0 }
    ensures value { (t : ℕ) → result ≡ effect family words.now.1 words.now.0 t phase }
    ensures tells { (t : ℕ)
        → Tells result words.now.0 (step family words.now.1 words.now.0 t phase).words }
{
    let (first, second) = (words.get(0), words.get(1));
    let section = section_on(words.bits(), first, second, third_of(words, family), phase);
    SectionEffect {
        first: change_to(words, section.first),
        second: change_to(words, section.other),
        outcome: section.next.1,
    }
}
