//! The answers of a keeper and of its history if memory is refused, and calls that ask for none.

use crate::holding::holds;
use crate::refusing::{refuse, was_refused};
use lk_locks::{
    Entry, History, Holders, Keeper, LockKind, Move, Op, Outcome, PlayFault, Refusal, Shape,
    StepKind,
};
use lk_words::WordArray;
use std::alloc::Global;
use std::process::Abort;

const ACQUIRE: Move = Move::Call(Op::Acquire);

const SECTION: Move = Move::Step(StepKind::Section);

const ENTERS: [Move; 3] = [
    ACQUIRE,
    Move::Step(StepKind::Add),
    Move::Step(StepKind::Read),
];

// Thread 0 is inside, and each of the threads 1 to 59 has called: each refusal is due at once.
const REFUSED: [(u8, Move, Refusal); 7] = [
    (64, ACQUIRE, Refusal::NoSuchThread),
    (0, Move::Step(StepKind::Section), Refusal::WrongLock),
    (1, ACQUIRE, Refusal::Busy),
    (60, Move::Call(Op::Release), Refusal::NotHolder),
    (0, ACQUIRE, Refusal::AlreadyHolds),
    (0, Move::Step(StepKind::Read), Refusal::NoCall),
    (
        1,
        Move::Step(StepKind::Read),
        Refusal::WrongStep {
            next: StepKind::Add,
        },
    ),
];

// A keeper with 62 entries. Its next move asks for memory, since room is made for 64 at once.
fn full_keeper(alloc: Global) -> Option<Keeper<WordArray>> {
    let mut keeper = Keeper::at_start(alloc, Shape::new(LockKind::Ticket, 64, 64));
    for action in ENTERS {
        keeper.play(0, action).ok()?;
    }
    for thread in 1..60u8 {
        keeper.play(thread, ACQUIRE).ok()?;
    }
    (keeper.entries().len() == 62).then_some(keeper)
}

fn refuses(keeper: &mut Keeper<WordArray>) -> bool {
    for (thread, action, refusal) in REFUSED {
        if keeper.play(thread, action) != Err(PlayFault::Refused(refusal)) {
            return false;
        }
    }
    keeper.entries().len() == 62
}

#[test]
fn no_request_in_a_refused_play(rt: HostRuntime) {
    let Some(mut keeper) = full_keeper(rt.alloc()) else {
        panic!(rt; "there is memory")
    };
    refuse(rt.alloc(), 1);
    assert!(rt; refuses(&mut keeper) && !was_refused(rt.alloc()));
}

// An announced writer goes before a later reader. Then that reader leaves, so that the moves can be
// made again: once they add 19 entries.
const WRITER_FIRST: [(u8, Move, Outcome); 17] = [
    (0, Move::Call(Op::ReadLock), Outcome::Called),
    (0, SECTION, Outcome::Entered),
    (1, Move::Call(Op::WriteLock), Outcome::Called),
    (1, SECTION, Outcome::Moved),
    (2, Move::Call(Op::ReadLock), Outcome::Called),
    (2, SECTION, Outcome::Waits),
    (1, SECTION, Outcome::Waits),
    (0, Move::Call(Op::ReadUnlock), Outcome::Called),
    (0, SECTION, Outcome::Left),
    (2, SECTION, Outcome::Waits),
    (1, SECTION, Outcome::Entered),
    (1, Move::Call(Op::WriteUnlock), Outcome::Called),
    (2, SECTION, Outcome::Waits),
    (1, SECTION, Outcome::Left),
    (2, SECTION, Outcome::Entered),
    (2, Move::Call(Op::ReadUnlock), Outcome::Called),
    (2, SECTION, Outcome::Left),
];

fn plays(keeper: &mut Keeper<WordArray>, moves: &[(u8, Move, Outcome)]) -> bool {
    for (thread, action, outcome) in moves {
        if keeper.play(*thread, *action) != Ok(*outcome) {
            return false;
        }
    }
    true
}

// A keeper with 62 entries: its next move asks for memory. Thread 0 reads, and thread 1 waits to
// write.
fn announced_keeper(alloc: Global) -> Option<Keeper<WordArray>> {
    let mut keeper = Keeper::at_start(alloc, Shape::new(LockKind::RwFifo, 3, 64));
    for _ in 0..3u8 {
        if !plays(&mut keeper, &WRITER_FIRST) {
            return None;
        }
    }
    plays(&mut keeper, &WRITER_FIRST[..4]).then_some(keeper)
}

// Whether the holders, the queue and the entries are those before the move.
fn is_kept(keeper: &Keeper<WordArray>, before: &Keeper<WordArray>) -> bool {
    let Holders::Readers(readers) = keeper.holders() else {
        return false;
    };
    readers.as_slice() == [0].as_slice()
        && keeper.queue().as_slice() == [1].as_slice()
        && keeper.entries() == before.entries()
}

/// A move for which there is no memory changes nothing, and when it is made again it has the
/// outcome that it would have had, as have all after it.
pub fn play(rt: &impl Abort, alloc: Global, number: usize) -> bool {
    let (Some(mut keeper), Some(before)) = (announced_keeper(alloc), announced_keeper(alloc)) else {
        panic!(rt; "there is memory")
    };
    holds(rt, before.entries().len() == 62, "the entries before");
    refuse(alloc, number);
    let (thread, action, outcome) = WRITER_FIRST[4];
    let answer = keeper.play(thread, action);
    let refused = was_refused(alloc);
    if refused {
        let is_due = answer == Err(PlayFault::OutOfMemory) && is_kept(&keeper, &before);
        holds(rt, is_due, "a keeper without memory");
        holds(rt, plays(&mut keeper, &WRITER_FIRST[4..]), "a second try");
    } else {
        let is_due = answer == Ok(outcome) && plays(&mut keeper, &WRITER_FIRST[5..]);
        holds(rt, is_due, "a keeper");
    }
    refused
}

pub fn make_room(rt: &impl Abort, alloc: Global, number: usize) -> bool {
    let mut history = History::new(alloc);
    refuse(alloc, number);
    let answer = history.make_room();
    let refused = was_refused(alloc);
    let is_kept = answer.is_err() == refused && history.entries().is_empty();
    holds(rt, is_kept && (refused || history.room() >= 3), "a history");
    refused
}

// Whether a history with room for three entries asks for no memory, and has those that it is given.
fn has_room(alloc: Global) -> bool {
    let mut history = History::new(alloc);
    let is_made = history.entries().is_empty() && history.make_room().is_ok();
    if !is_made || history.room() < 3 {
        return false;
    }
    refuse(alloc, 1);
    let is_kept = history.make_room().is_ok() && history.room() >= 3;
    let entries = [Entry::Called(7, Op::Acquire), Entry::Acted(7, Op::Acquire)];
    if was_refused(alloc) || !is_kept {
        return false;
    }
    history.append(&entries);
    history.entries() == entries.as_slice()
}

#[test]
fn no_request_with_room_for_three(rt: HostRuntime) {
    assert!(rt; has_room(rt.alloc()));
}
