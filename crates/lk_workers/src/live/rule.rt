//! The rule of the running ticket lock, and its steps as a table sees them.
//!
//! A view is a list of ghost states of seats, one as a rule. Nothing of it is kept when the lock
//! runs.

ghost use Rattle.std.specs.Prelude.{[], ◌∷◌, ◌≡◌, ◌<◌, ◌≤◌, ◌^◌, ⊤, map, take, drop};
ghost use Rattle.lk_workers.specs.Seats.{new_seat};
ghost use Rattle.lk_workers.specs.invariants.Running.{Running, OfOne, Inspects};
ghost use Rattle.lk_workers.specs.SeatSteps.{take_step, look_step, read_step, pass_step, rest_of};
ghost use Rattle.lk_workers.specs.SeatSteps.{share_of, merge_of, pair_of};

use super::LivePhase;
use crate::amount::{Amount, SplitOff};
use atomic_table::{Join, Play, Shared, Split, TableRule};
use std::collections::LinkedList;

/// An atomic access: its word, and what it adds or stores there. No value of it is made.
pub struct Access {
    pub word: u64,
    pub operand: u64,
}

/// The ghost state of one seat. No value of it is made.
pub struct SeatState {
    pub phase: LivePhase,
    pub ticket: u64,
    pub left: u64,
    pub taken: u64,
    pub seen: u64,
    pub loads: u64,
    pub made: LinkedList<Access>,
}

/// The ghost states of the seats that are held together.
pub type View = LinkedList<SeatState>;

/// The two words, with their rule.
pub type LiveWords = Shared<(), View, u64, TicketRule>;

/// The words and the seats are a state of the ticket lock.
pub struct TicketRule;

impl TableRule<(), View, u64> for TicketRule {
    ghost holds = { Running };

    ghost first = { λ takes. new_seat takes 0 ∷ [] };
}

/// The fetch-and-add on `next_ticket`.
pub struct Take;

impl Play<(), View> for Take {
    ghost then = { OfOne take_step
        (λ r found. (r.seen ≤ found) × (found < 2 ^ 40) × (r.taken < 2 ^ 40)) };
}

/// A load of `now_serving` by a seat that waits.
pub struct Look;

impl Play<(), View> for Look {
    ghost then = { OfOne look_step (λ r found. r.seen ≤ found) };
}

/// The load of `now_serving` by a seat that releases.
pub struct ReadServing;

impl Play<(), View> for ReadServing {
    ghost then = { OfOne read_step (λ r found. found ≡ r.ticket) };
}

/// The store into `now_serving`.
pub struct Pass;

impl Play<(), View> for Pass {
    ghost then = { OfOne pass_step (λ r found. ⊤) };
}

// A load that changes nothing. It gives facts of the rule: the numbers of a seat are at most 2^40;
// two seats of one view do not both hold the lock, and their tickets differ.
pub struct Inspect;

impl Play<(), View> for Inspect {
    ghost then = { Inspects };
}

impl<A: Amount> Split<View> for SplitOff<A> {
    ghost left = { map (rest_of A.amount) };

    ghost right = { map (share_of A.amount) };
}

/// A join: afterwards one seat has what two had.
pub struct Merge;

impl Join<View> for Merge {
    ghost both = { merge_of };

    ghost spent = { [] };
}

// Two seats side by side in one view, and in two again.
pub struct SideBySide;

impl Join<View> for SideBySide {
    ghost both = { pair_of };

    ghost spent = { [] };
}

impl Split<View> for SideBySide {
    ghost left = { take 1 };

    ghost right = { drop 1 };
}
