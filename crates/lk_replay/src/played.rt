//! The replay of a schedule: its moves, played in order up to the first refused one.

ghost use Rattle.std.specs.Prelude.{◌≡◌, IfOk, ◌≤◌, length};
ghost use Rattle.lk_replay.specs.Replay.{replayed_of, Replayed};
ghost use Rattle.lk_replay.specs.Whole.{IsHistoryOf};
ghost use Rattle.lk_locks.specs.MainTheorem.{IsAsPromised};

use crate::Schedule;
use lk_locks::{Entry, Keeper, Move, Outcome, PlayFault, Refusal};
use lk_words::WordArray;
use std::alloc::{AllocError, Global};
use std::marker::Model;

/// A move that was played, the line of its text, and what it did.
#[derive(Clone, Copy, PartialEq, Eq, Debug)]
pub struct Accepted {
    pub line: u32,
    pub thread: u8,
    pub action: Move,
    pub outcome: Outcome,
}

/// The result of a schedule that was played up to its first refused move.
#[derive(Drop)]
pub struct Played {
    accepted: Vec<Accepted>,
    keeper: Keeper<WordArray>,
    refused: Option<(u32, Refusal)>,
}

impl Model for Played {
    ghost Value = { Replayed };

    ghost view = { λ a. record {
      kind = a.keeper.state.kind;
      threads = length a.keeper.state.phases;
      accepted = a.accepted.items;
      entries = a.keeper.entries;
      refused = a.refused;
    } };

    ghost invariant = { λ a. length a.accepted.items ≤ 65536 };
}

impl Played {
    /// The accepted moves, in order.
    pub fn accepted(&self) -> &[Accepted]
        ensures accepted { result.now ≡ self.now.accepted }
        ensures few { length result.now ≤ 65536 }
    {
        self.accepted.as_slice()
    }

    /// The history that they leave. It is legal for the lock, and so exclusive and in order,
    /// whatever the schedule.
    pub fn entries(&self) -> &[Entry]
        ensures entries { result.now ≡ self.now.entries }
        ensures promised { IsAsPromised self.now.kind self.now.threads result.now }
    {
        self.keeper.entries()
    }

    /// The line of the first refused move, and why it was refused.
    pub fn refused(&self) -> Option<(u32, Refusal)>
        ensures { result ≡ self.now.refused }
    {
        self.refused
    }
}

/// Plays the moves in order, up to the first refused one, which is no error.
///
/// # Errors
///
/// There was no memory for the history or the accepted moves.
pub fn replay(alloc: Global, schedule: &Schedule) -> Result<Played, AllocError>
    ensures played { IfOk result (λ played. played ≡ replayed_of schedule.now) }
    ensures moves { IfOk result
        (λ played. IsHistoryOf schedule.now played.accepted played.entries) }
{
    let mut keeper = Keeper::at_start(alloc, schedule.shape());
    let moves = schedule.moves();
    let mut accepted = Vec::with_capacity(alloc, moves.len())?;
    for line in moves {
        match keeper.play(line.thread, line.action) {
            Ok(outcome) => accepted.push(Accepted {
                line: line.number,
                thread: line.thread,
                action: line.action,
                outcome,
            })?,
            Err(PlayFault::Refused(refusal)) => {
                return Ok(Played {
                    accepted,
                    keeper,
                    refused: Some((line.number, refusal)),
                });
            }
            Err(PlayFault::OutOfMemory) => return Err(AllocError),
        }
    }
    Ok(Played {
        accepted,
        keeper,
        refused: None,
    })
}
