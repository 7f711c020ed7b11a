//! An order cut into pieces, each of which is a schedule: it begins where nobody is in a call and
//! nobody holds.

ghost use Rattle.std.specs.Prelude.{◌≡◌, ◌+◌, ◌-◌, ◌<◌, ◌≤◌, IfSome, MatchOption, length};
ghost use Rattle.lk_order.specs.Orders.{IsQuiet};
ghost use Rattle.lk_order.specs.Cuts.{IsBusy, IsEnd, IsNextPiece, IsPieceEnd, Cut};

use crate::Order;
use std::marker::Model;

/// The most moves of a piece: a schedule's. A move's line is at most 13 bytes, as in `63
/// downgrade`, so that a piece has fewer bytes than a schedule may have.
pub const MOST_MOVES: usize = 65_536;

/// Moves of an order, one after the other: so many from the move `first` on, counted from 0.
#[derive(Clone, Copy)]
pub struct Piece {
    pub first: usize,
    pub moves: usize,
}

/// The pieces of an order.
#[derive(Drop)]
pub struct Pieces<'a> {
    order: &'a Order,
    // how many moves are in pieces or left out so far
    at: usize,
    // how many of these are in pieces
    given: usize,
}

impl<'a> Model for Pieces<'a> {
    ghost Value = { Cut };

    ghost view = { λ a. record { order = a.order.now; at = a.at; given = a.given } };

    ghost invariant = { λ a. (a.given ≤ a.at) × (a.at ≤ length a.order.now.trace) };
}

// The first moment from this move on at which nobody is in a call and nobody holds, or else the
// order's end.
fn next_quiet(order: &Order, from: usize) -> usize
    requires { from ≤ length order.now.trace }
    ensures behind { from ≤ result }
    ensures inside { result ≤ length order.now.trace }
    ensures busy { IsBusy order.now from result }
    ensures quiet { result < length order.now.trace → IsQuiet order.now result }
{
    for k in from..order.len() {
        if order.is_quiet_at(k) {
            return k;
        }
    }
    order.len()
}

// Where the piece from this move on ends: where the order ends, if a schedule has room up to there.
// Else it is the last moment at which nobody is in a call, or where a schedule is full.
fn end_of(order: &Order, first: usize) -> usize
    requires { first < length order.now.trace }
    ensures some { first < result }
    ensures few { result ≤ first + 65536 }
    ensures inside { result ≤ length order.now.trace }
    ensures end { IsPieceEnd order.now first result }
{
    let most = order.len().min(first.saturating_add(MOST_MOVES));
    if most == order.len() {
        return most;
    }
    let mut end = most;
    for k in first + 1..most + 1 {
        if order.is_quiet_at(k) {
            end = k;
        }
    }
    end
}

impl<'a> Pieces<'a> {
    /// Begins with the first move.
    pub fn new(order: &'a Order) -> Pieces<'a>
        ensures { result ≡ record { order = order.now; at = 0; given = 0 } }
    {
        Pieces {
            order,
            at: 0,
            given: 0,
        }
    }

    /// How many moves were left out so far: those between two moments at which nobody is
    /// in a call, if a schedule has no room for them.
    pub fn left_out(&self) -> usize
        ensures { result ≡ self.now.at - self.now.given }
    {
        self.at - self.given
    }

    /// The next piece. None is left at the end.
    pub fn next_piece(&mut self) -> Option<Piece>
        ensures some { IfSome result (λ piece. 0 < piece.moves) }
        ensures few { IfSome result (λ piece. piece.moves ≤ 65536) }
        ensures next { MatchOption result (IsEnd self.old self.new)
            (IsNextPiece self.old self.new) }
    {
        let first = next_quiet(self.order, self.at);
        if first >= self.order.len() {
            self.at = first;
            return None;
        }
        let end = end_of(self.order, first);
        self.at = end;
        self.given += end - first;
        Some(Piece {
            first,
            moves: end - first,
        })
    }
}
