//! The words of the locks by name. A section of a read-write lock is on all of its words, so no
//! trace names them.

ghost use Rattle.std.specs.Prelude.{◌≡◌};
ghost use Rattle.lk_trace.specs.Names.{name_at};

use lk_locks::LockKind;
use std::fmt;

/// A word of a lock. `Next` and `Locked` are in the record of the thread that they name.
#[derive(Clone, Copy, PartialEq, Eq, Debug)]
pub enum WordName {
    NextTicket,
    NowServing,
    Tail,
    Next(u8),
    Locked(u8),
    Readers,
    Flag,
    ReadAcquires,
    ReadReleases,
}

impl fmt::Display for WordName {
    fn fmt<W: fmt::Write>(&self, f: &mut fmt::Formatter<W>) -> fmt::Result {
        match self {
            WordName::NextTicket => f.write_str("next_ticket"),
            WordName::NowServing => f.write_str("now_serving"),
            WordName::Tail => f.write_str("tail"),
            WordName::Next(thread) => write!(f, "next of {thread}"),
            WordName::Locked(thread) => write!(f, "locked of {thread}"),
            WordName::Readers => f.write_str("readers"),
            WordName::Flag => f.write_str("flag"),
            WordName::ReadAcquires => f.write_str("readAcquires"),
            WordName::ReadReleases => f.write_str("readReleases"),
        }
    }
}

/// The name of the lock's word at this place. Of an MCS lock these are the tail, and two words in
/// the record of each of at most 64 threads.
pub fn name_at(kind: LockKind, place: usize) -> Option<WordName>
    ensures { result ≡ name_at kind place }
{
    match (kind, place) {
        (LockKind::Ticket, 0) => Some(WordName::NextTicket),
        (LockKind::Ticket, 1) => Some(WordName::NowServing),
        (LockKind::Mcs, 0) => Some(WordName::Tail),
        (LockKind::Mcs, 1..=128) if place % 2 == 1 => Some(WordName::Next((place / 2) as u8)),
        (LockKind::Mcs, 1..=128) => Some(WordName::Locked((place / 2 - 1) as u8)),
        (LockKind::RwSimple, 0) => Some(WordName::Readers),
        (LockKind::RwSimple, 1) => Some(WordName::Flag),
        (LockKind::RwFifo, 0) => Some(WordName::ReadAcquires),
        (LockKind::RwFifo, 1) => Some(WordName::ReadReleases),
        (LockKind::RwFifo, 2) => Some(WordName::Flag),
        _ => None,
    }
}
