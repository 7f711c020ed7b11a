//! The functions of each lock's module, by the lock, and the family that it belongs to. Code that
//! the locks share calls these, and knows no lock.

ghost use Rattle.std.specs.Prelude.{◌≡◌, ◌≤◌, ℕ, IfSome, IfNone, true, false};
ghost use Rattle.lk_locks.specs.Change.{Makes};
ghost use Rattle.lk_locks.specs.Locks.{family_of, word_count, after_call, step_due};
ghost use Rattle.lk_locks.specs.Locks.{operation_of, effect_of, step_of};
ghost use Rattle.lk_locks.specs.Effects.{IsEffectOf};
ghost use Rattle.lk_locks.specs.Progress.{is_acquiring};
ghost use Rattle.lk_locks.specs.Steps.{belongs, may_make, move_change};
ghost use Rattle.lk_locks.specs.Types.{Op, Call};
ghost use Rattle.lk_locks.specs.invariants.WellFormed.{IsReady};

use crate::entries::{Added, Next};
use crate::{
    Family, LockKind, Move, Op, Outcome, Phase, StepEffect, StepKind, mcs, read_write, ticket,
};
use lk_words::{Operation, WordArray, Words, perform};

/// The family of a lock.
#[inline]
pub fn family_of(kind: LockKind) -> Family
    ensures { result ≡ family_of kind }
{
    match kind {
        LockKind::Ticket | LockKind::Mcs => Family::Queue,
        LockKind::RwSimple => Family::ReadWrite,
        LockKind::RwFifo => Family::FifoReadWrite,
    }
}

/// The number of words that a lock of this kind needs with so many threads.
pub fn words_needed(kind: LockKind, threads: u8) -> usize
    ensures { result ≡ word_count kind threads }
{
    match kind {
        LockKind::Ticket | LockKind::RwSimple => 2,
        LockKind::Mcs => 1 + 2 * threads as usize,
        LockKind::RwFifo => 3,
    }
}

/// Whether the operation or the kind of step is one of the lock's.
#[inline(always)]
pub fn belongs(kind: LockKind, action: Move) -> bool
    ensures { result ≡ belongs kind action }
{
    use StepKind::{Add, Cas, Read, Section, Swap, Write};
    match action {
        Move::Call(op) => {
            let is_queued = matches!(op, Op::Acquire | Op::Release);
            is_queued == matches!(kind, LockKind::Ticket | LockKind::Mcs)
        }
        Move::Step(step) => match kind {
            LockKind::Ticket => matches!(step, Add | Read | Write),
            LockKind::Mcs => matches!(step, Read | Write | Swap | Cas),
            LockKind::RwSimple | LockKind::RwFifo => step == Section,
        },
    }
}

/// The phase that a call leads to, if a thread in this phase may make it.
#[inline(always)]
pub(crate) fn after_call(kind: LockKind, phase: Phase, op: Op) -> Option<Phase>
    ensures { result ≡ after_call kind phase op }
{
    match kind {
        LockKind::Ticket => ticket::after_call(phase, op),
        LockKind::Mcs => mcs::after_call(phase, op),
        LockKind::RwSimple | LockKind::RwFifo => read_write::after_call(phase, op),
    }
}

/// Returns the call by which a thread in this phase gives the lock back, if it is inside.
#[tactic(auto, using(crate::proofs::progress::Leaving::only_acquires))]
pub(crate) fn leaving_call(kind: LockKind, phase: Phase) -> Option<Op>
    ensures leaves { IfSome result (λ op. (may_make kind phase (Call op) ≡ true)
        × (is_acquiring kind (Call op) ≡ false)) }
    ensures none { IfNone result ((op : Op) → may_make kind phase (Call op) ≡ true
        → is_acquiring kind (Call op) ≡ true) }
{
    if after_call(kind, phase, Op::Release).is_some() {
        Some(Op::Release)
    } else if after_call(kind, phase, Op::ReadUnlock).is_some() {
        Some(Op::ReadUnlock)
    } else {
        after_call(kind, phase, Op::WriteUnlock).and(Some(Op::WriteUnlock))
    }
}

/// The operation that a thread in this phase makes next, on one word of so many bits. There is none
/// if its next step is a section.
#[inline(always)]
pub fn operation_of(kind: LockKind, bits: u8, thread: u8, phase: Phase) -> Option<Operation>
    requires least { 2 ≤ bits }
    requires most { bits ≤ 64 }
    ensures { result ≡ operation_of kind bits thread phase }
{
    match kind {
        LockKind::Ticket => ticket::operation(bits, phase),
        LockKind::Mcs => mcs::operation(thread, phase),
        // a section is on all words of the monitor
        LockKind::RwSimple | LockKind::RwFifo => None,
    }
}

/// Returns the step that a thread in this phase takes next, by the operation that it makes next, if
/// it has a pending call. Which kind it is depends on neither thread nor bits.
#[inline(always)]
pub(crate) fn step_by(
    kind: LockKind,
    phase: Phase,
    operation: Option<Operation>,
) -> Option<StepKind>
    requires { (bits t : ℕ) × (operation ≡ operation_of kind bits t phase) }
    ensures { result ≡ step_due kind phase }
{
    if let LockKind::RwSimple | LockKind::RwFifo = kind {
        return read_write::step_due(phase);
    }
    Some(match operation? {
        Operation::Read { .. } => StepKind::Read,
        Operation::Write { .. } => StepKind::Write,
        Operation::Swap { .. } => StepKind::Swap,
        Operation::CompareAndSwap { .. } => StepKind::Cas,
        Operation::FetchAndAdd { .. } => StepKind::Add,
    })
}

/// Makes an accepted move of a thread on the words, and returns the thread's new phase, the outcome
/// and the entries. `operation` is the one that its next step makes.
#[inline(always)]
pub(crate) fn make_move<W: Words>(
    words: &mut W,
    kind: LockKind,
    thread: u8,
    phase: Phase,
    operation: Option<Operation>,
    action: Move,
) -> Next
    requires ready { IsReady kind (W.width words.old) (W.list words.old) thread phase }
    requires due { operation ≡ operation_of kind (W.width words.old) thread phase }
    ensures change { Makes (W.list words.new) thread result
        (move_change kind (W.width words.old) (W.list words.old) thread phase action) }
    ensures width { W.width words.new ≡ W.width words.old }
{
    if let Move::Call(op) = action {
        let next = after_call(kind, phase, op).unwrap_or(phase);
        return (next, Outcome::Called, Added::Call(op));
    }
    match (kind, operation) {
        (LockKind::Ticket, Some(operation)) => ticket::after(phase, perform(words, operation)),
        (LockKind::Mcs, Some(operation)) => mcs::after(phase, perform(words, operation)),
        (LockKind::Ticket | LockKind::Mcs, None) => (phase, Outcome::Waits, Added::Nothing),
        (LockKind::RwSimple, _) => read_write::step(words, Family::ReadWrite, phase),
        (LockKind::RwFifo, _) => read_write::step(words, Family::FifoReadWrite, phase),
    }
}

/// The effect that the next step of a thread in this phase would have, if it has one.
pub(crate) fn effect_of(
    words: &WordArray,
    kind: LockKind,
    thread: u8,
    phase: Phase,
) -> Option<StepEffect>
    requires { IsReady kind words.now.1 words.now.0 thread phase }
    ensures value { result ≡ effect_of kind words.now.1 words.now.0 thread phase }
    ensures tells { IfSome result
        (IsEffectOf (step_of kind words.now.1 words.now.0 thread phase) words.now.0) }
{
    match kind {
        LockKind::Ticket => {
            let effect = words.effect(ticket::operation(words.bits(), phase)?);
            Some(StepEffect::OneWord(effect, ticket::after(phase, effect.answer).1))
        }
        LockKind::Mcs => {
            let effect = words.effect(mcs::operation(thread, phase)?);
            Some(StepEffect::OneWord(effect, mcs::after(phase, effect.answer).1))
        }
        LockKind::RwSimple | LockKind::RwFifo => {
            read_write::step_due(phase)?;
            Some(StepEffect::Monitor(read_write::effect(words, family_of(kind), phase)))
        }
    }
}
