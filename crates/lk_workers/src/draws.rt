//! A counter whose numbers threads draw, each once.
//!
//! A draw is a fetch-and-add on one shared word. A contract sees a seat as the list of the numbers
//! that it drew; no run keeps that list. The invariant counts: each number below the word is in the
//! lists of all seats once, and no other number is.

ghost use Rattle.std.specs.Prelude.{◌≡◌, ◌+◌, ◌-◌, ◌^◌, ◌<◌, ◌≤◌, [], ◌∷◌, ◌++◌, length, All, IfOk};
ghost use Rattle.lk_workers.specs.Counting.{IsEachBelow};
ghost use Rattle.lk_workers.specs.Drawing.{Drawer, drawer, Counter, IsSeatOf, EachNumberOnce};
ghost use Rattle.lk_workers.specs.Drawing.{IsEnd};
ghost use Rattle.lk_workers.specs.invariants.DrawRule.{Drawn, DrawFinds, InspectFinds, draw_view};

use crate::amount::{Amount, SplitOff};
use atomic_table::{Join, Play, Seat, Shared, Split, Table, TableRule};
use std::alloc::{AllocError, Global};
use std::collections::LinkedList;
use std::marker::{Brand, Model};

/// The view of one seat. No value of it is made.
pub struct DrawView {
    pub drawn: LinkedList<u64>,
    pub left: u64,
    pub draws: u64,
}

/// The numbers drawn are those below the word, each once.
pub struct DrawnOnce;

impl TableRule<(), DrawView, u64> for DrawnOnce {
    ghost holds = { Drawn };

    ghost first = { λ draws. draw_view [] draws draws };
}

struct Draw;

impl Play<(), DrawView> for Draw {
    ghost then = { DrawFinds };
}

// A load that changes no view. It gives a fact of the invariant: a joined seat's draws are few.
struct Inspect;

impl Play<(), DrawView> for Inspect {
    ghost then = { InspectFinds };
}

impl<A: Amount> Split<DrawView> for SplitOff<A> {
    ghost left = { λ v. draw_view v.drawn (v.left - A.amount) v.draws };

    ghost right = { λ v. draw_view [] A.amount v.draws };
}

struct Merge;

impl Join<DrawView> for Merge {
    ghost both = { λ v w. draw_view (v.drawn ++ w.drawn) (v.left + w.left) v.draws };

    ghost spent = { draw_view [] 0 0 };
}

/// A counter that begins at 0, and whose numbers are drawn by fetch-and-add.
#[derive(Drop)]
pub struct Draws {
    table: Table<(), DrawView, u64, DrawnOnce, Global>,
}

impl Model for Draws {
    ghost Value = { Counter };

    ghost view = { λ d. record { table = d.table.shared.table_id; draws = d.table.shared.key } };

    ghost invariant = { λ d.
        (d.table.shared.table_id.words ≡ 1) × (d.table.shared.table_id.slots ≡ 0) };
}

/// The right to draw a number of times from one counter. A contract sees the numbers that it drew.
#[derive(Drop)]
pub struct DrawSeat {
    seat: Seat<(), DrawView>,
    left: u64,
}

impl Model for DrawSeat {
    ghost Value = { Drawer };

    ghost view = { λ s. record {
      table = s.seat.table_id;
      draws = s.seat.me.0.draws;
      drawn = s.seat.me.0.drawn;
      left = s.left;
    } };

    ghost invariant = { λ s. (s.seat.me.0.left ≡ s.left) × (s.seat.me.1 ≡ []) };
}

impl DrawSeat {
    /// The number of draws that the seat has left.
    pub fn left(&self) -> u64
        ensures { result ≡ self.now.left }
    {
        self.left
    }
}

fn split_off<A: Amount>(
    word: &Shared<(), DrawView, u64, DrawnOnce>,
    seat: &mut Seat<(), DrawView>,
    amount: u64,
) -> Seat<(), DrawView>
    requires amount { (amount ≡ A.amount) × (amount ≤ seat.old.me.0.left) }
    requires own { (seat.old.table_id ≡ word.now.table_id) × (0 < word.now.table_id.words) }
    ensures kept { (seat.new.table_id ≡ seat.old.table_id) × (seat.new.me ≡ (
      draw_view seat.old.me.0.drawn (seat.old.me.0.left - amount) seat.old.me.0.draws,
      seat.old.me.1,
    )) }
    ensures given { (result.table_id ≡ seat.old.table_id)
        × (result.me ≡ (draw_view [] amount seat.old.me.0.draws, [])) }
{
    word.split_seat::<SplitOff<A>>(seat)
}

impl Draws {
    /// A counter at 0, and its first seat, which has all of its draws.
    ///
    /// # Errors
    ///
    /// There was no memory for the word.
    pub fn open(alloc: Global, draws: u64) -> Result<(Draws, DrawSeat), AllocError>
        requires { draws ≤ 2 ^ 40 }
        ensures { IfOk result (λ r. (r.0.draws ≡ draws) × (r.1 ≡ drawer r.0 [] draws)) }
    {
        let (table, seat) = Table::of_words(alloc, &[0], &draws)?;
        Ok((Draws { table }, DrawSeat { seat, left: draws }))
    }

    /// Draws the next number, which no other seat draws: a fetch-and-add of 1.
    pub fn draw(&self, seat: &mut DrawSeat) -> u64
        requires own { IsSeatOf self.now seat.old }
        requires left { 0 < seat.old.left }
        ensures seat { seat.new
            ≡ drawer self.now (seat.old.drawn ++ result ∷ []) (seat.old.left - 1) }
        ensures greater { All (λ x. x < result) seat.old.drawn }
        // at least as many numbers are below it
        ensures many { length seat.old.drawn ≤ result }
    {
        let number = self.table.shared.fetch_add::<Draw>(&mut seat.seat, 0, 1);
        seat.left -= 1;
        number
    }

    /// A second seat, which takes this many of the first one's draws.
    pub fn split(&self, seat: &mut DrawSeat, left: u64) -> DrawSeat
        requires own { IsSeatOf self.now seat.old }
        requires left { left ≤ seat.old.left }
        ensures kept { seat.new ≡ drawer self.now seat.old.drawn (seat.old.left - left) }
        ensures given { result ≡ drawer self.now [] left }
    {
        let other = split_off::<Brand>(&self.table.shared, &mut seat.seat, left);
        seat.left -= left;
        DrawSeat { seat: other, left }
    }

    /// Makes two seats one, which has both lists and the draws of both.
    pub fn join(&self, seat: &mut DrawSeat, other: DrawSeat)
        requires own { IsSeatOf self.now seat.old × IsSeatOf self.now other }
        ensures { seat.new
            ≡ drawer self.now (seat.old.drawn ++ other.drawn) (seat.old.left + other.left) }
    {
        self.table
            .shared
            .join_seat::<Merge>(&mut seat.seat, other.seat);
        self.table.shared.load::<Inspect>(&mut seat.seat, 0);
        seat.left += other.left;
    }

    /// The word at the end. A seat to which all draws came back has drawn each number below it,
    /// once.
    pub fn close(self, seat: DrawSeat) -> u64
        requires own { IsSeatOf self seat }
        // it is the word of the last state, in which the seat is as it was
        ensures word { IsEnd self.draws result seat.drawn seat.left }
        ensures each { length seat.drawn + seat.left ≡ self.draws → IsEachBelow result seat.drawn }
    {
        let closed = self.table.close_with(seat.seat);
        let word = closed.word(0);
        closed.free();
        word
    }
}

/// Between any two steps, the lists of all seats, those dropped or joined among them, hold the
/// numbers below the word, each once; and each draw is greater than all that its seat drew before,
/// and no other seat has it.
pub fn each_number_once()
    ensures { EachNumberOnce }
{}
