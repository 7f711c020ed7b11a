//! The transitions of each lock in words: their kinds, a sentence for each, the value for which a
//! thread polls, and advice after a step that the algorithm does not have.
//!
//! Each lock has a module with its table. `locktrace` and the page take their words about a lock's
//! transitions from these tables, so that a sentence is written once. A sentence has places,
//! such as `{who}`, which the values of a transition fill:
//!
//! | Place | Its value |
//! |---|---|
//! | `{who}` | the thread that moves |
//! | `{found}`, `{left}` | the word of its step, before and after it |
//! | `{number}` | the number in its phase before the step: its ticket |
//! | `{finds}` | the thread whose record the word named before the step, or nil |
//! | `{other}` | the thread in its phase before the step: its predecessor or successor |
//! | `{readers}`, `{flag}`, .. | the word of this name, after the step |
//!
//! ```
//! use lk_catalogue::{Observed, kinds_of, place_of};
//! use lk_locks::{LockKind, Move, Outcome, Phase, StepKind};
//!
//! fn what_an_add_is() -> Option<&'static str> {
//!     let add = Observed {
//!         from: Phase::TakeTicket,
//!         action: Move::Step(StepKind::Add),
//!         outcome: Outcome::Moved,
//!         after: Phase::AwaitTurn(0),
//!     };
//!     let kind = kinds_of(LockKind::Ticket).get(place_of(LockKind::Ticket, add)?)?;
//!     Some(kind.name) // "acquire: took a ticket"
//! }
//! ```
#![tactic(auto)]

// The kinds of a lock, a row each: its name, the lines of its sketch, and its sentence.
macro_rules! kinds {
    ($($name:literal: $($line:literal),+ => $says:literal;)+) => {
        [$(Kind { name: $name, sketch: &[$($line),+], says: $says }),+]
    };
}

mod helps;
mod kinds;
mod mcs;
mod rw_fifo;
mod rw_simple;
mod ticket;

pub use helps::{Wrong, help_for_refusal, help_for_step_with};
pub use kinds::{Awaited, Kind, LOCKS, Observed, is_kind, kinds_of, place_of, polled_for};
