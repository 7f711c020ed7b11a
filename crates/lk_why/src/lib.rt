//! Changed locks: a lock of which one step is changed, as data over the lock's own tables.
//!
//! A change names a step, and what becomes of it: it is left out, its test goes one way, it is made
//! in two halves, or in the other order with the step after it. The changed lock is the lock
//! itself, which takes its steps on words that were altered, so that no broken lock is written by
//! hand. Beside it goes the sequential object of the lock, which says whether a step did harm.
#![tactic(auto)]

// The changes of a lock, a row each: the step, and what becomes of it.
macro_rules! changes {
    ($($step:ident: $how:expr;)+) => {
        [$(Change { step: PhaseName::$step, how: $how }),+]
    };
}

mod altered;
mod change;
mod changes;
mod choice;
mod halves;
mod judge;
mod lock;
mod made;
mod mcs;
mod position;
mod rw_fifo;
mod rw_simple;
mod steps;
mod system;
pub mod theorems;
mod ticket;
mod verdict;

pub use change::{Change, Found, How, PhaseName, Written};
pub use changes::changes_of;
pub use choice::{Action, Choice};
pub use judge::Judge;
pub use lock::ChangedLock;
pub use position::Position;
pub use verdict::{Verdict, verdict_on};
