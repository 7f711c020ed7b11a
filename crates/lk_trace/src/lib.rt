//! Traces: schedules whose lines also say which word a step was on, and what value it had.
//!
//! A trace is read line by line, and each move is made on the lock's machine. It is accepted if
//! the machine accepts the move and each part that the line gives is the machine's. The memory does
//! not grow with the run.
#![tactic(auto)]

mod checker;
mod codes;
mod compare;
mod difference;
mod due;
mod line;
mod names;
mod open;
mod trace;
mod unreadable;

pub use checker::{Checker, Made};
pub use codes::{fault_number, move_number, outcome_number, refusal_number};
pub use compare::check_line;
pub use difference::Difference;
pub use due::Due;
pub use line::{MOST_OF_A_LINE, Seen, TraceLine, read_line, read_log_line};
pub use names::{WordName, name_at};
pub use open::{Doer, doer_of, filled_line, filled_line_on};
pub use trace::{Event, TextFault, TraceReader, read_header};
pub use unreadable::{unreadable_line, unreadable_sketch_line};
