//! The acquires of an MCS lock, as each thread's log has them: whom the swap found, and whom the
//! release found.

use lk_locks::{LockKind, Move, Op, StepKind};
use lk_trace::{Seen, TraceLine, WordName};
use std::alloc::{AllocError, Global};

/// A neighbor in the queue, as far as it is known.
#[derive(Clone, Copy, Default, PartialEq, Eq)]
pub enum Neighbor {
    #[default]
    Unknown,
    Nobody,
    Thread(u8),
}

/// An acquire with its release.
#[derive(Clone, Copy, Default)]
pub struct Instance {
    /// Whom the swap found.
    pub before: Neighbor,
    /// Whom the release found.
    pub after: Neighbor,
    /// How far the log has to be placed before the successor may link itself: after the last look
    /// that found no link.
    pub unlinked: usize,
    /// The value that the release found in the tail if it failed to clear it, and the place of that
    /// in the log.
    pub failed: Option<(u64, usize)>,
    /// Which instance of its thread the predecessor is.
    pub predecessor: Option<usize>,
    /// Which instance of its thread the successor is.
    pub successor: Option<usize>,
    /// The number of its chain.
    pub chain: Option<usize>,
}

// The neighbor that a word of the lock names.
fn named(value: u64) -> Neighbor {
    match value {
        0 => Neighbor::Nobody,
        1..=64 => Neighbor::Thread((value - 1) as u8),
        _ => Neighbor::Unknown,
    }
}

// Notes what a step of a release tells. `at` is its place in the log.
fn note(instance: &mut Instance, line: TraceLine, at: usize) {
    let (
        Move::Step(step),
        Seen::OnWord {
            word,
            found,
            wrote,
            ..
        },
    ) = (line.action, line.seen)
    else {
        return;
    };
    match (step, word, found) {
        (StepKind::Swap, _, Some(found)) => instance.before = named(found),
        (StepKind::Read, WordName::Next(_), Some(0)) => instance.unlinked = at.saturating_add(1),
        (StepKind::Read, WordName::Next(_), Some(found)) => instance.after = named(found),
        (StepKind::Cas, ..) if wrote == Some(true) => instance.after = Neighbor::Nobody,
        (StepKind::Cas, _, Some(found)) => instance.failed = Some((found, at)),
        _ => {}
    }
}

/// The instances of a log, in order: of another lock there are none.
pub fn instances_of(
    alloc: Global,
    kind: LockKind,
    moves: &[TraceLine],
) -> Result<Vec<Instance>, AllocError> {
    let mut instances: Vec<Instance> = Vec::new(alloc);
    if kind != LockKind::Mcs {
        return Ok(instances);
    }
    for (at, line) in moves.iter().enumerate() {
        if let Move::Call(Op::Acquire) = line.action {
            instances.push(Instance::default())?;
        } else if let Some(last) = instances.last_mut() {
            note(last, *line, at);
        }
    }
    Ok(instances)
}
