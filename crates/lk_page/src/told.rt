//! A page learns of a schedule a record of each move, and where the moves ended.

use lk_locks::{Move, Outcome, Phase, Refusal, StepKind};

/// A word that a move touched, with its value before and after.
#[derive(Clone, Copy)]
pub struct Touch {
    pub word: u8,
    pub found: u64,
    pub left: u64,
}

/// Whether a thread holds the lock, is in its queue, and holds it as a writer.
#[derive(Clone, Copy)]
pub struct Standing {
    pub holds: bool,
    pub is_queued: bool,
    pub writes: bool,
}

/// A move that was made.
#[derive(Clone, Copy)]
pub struct Record {
    pub line: u32,
    pub thread: u8,
    pub action: Move,
    pub outcome: Outcome,
    /// The number of its kind of transition among those of its lock.
    pub kind: u8,
    /// The phase of its thread after it, the step that is then due, and its standing.
    pub phase: Phase,
    pub due: Option<StepKind>,
    pub standing: Standing,
    /// The calls that its thread may make then, bit k for the call with code k.
    pub calls: u8,
    /// Whether its thread waits then.
    pub waits: bool,
    /// The word that changed or else was looked at, and the second word of a section that changes
    /// two.
    pub first: Option<Touch>,
    pub second: Option<Touch>,
}

/// The number of moves that were made, and the line and reason of the refused one, if one was.
#[derive(Clone, Copy)]
pub struct Stopped {
    pub count: u32,
    pub refused: Option<(u32, Refusal)>,
}
