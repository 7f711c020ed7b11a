//! The parts that schedules, traces, logs and sketches share, each of which is read line by line:
//! the lines and tokens of a text, its header, the names of locks, moves and outcomes, and the
//! place at which a line stops being a header or a move. The programs that read such texts also
//! share their statuses.
#![tactic(auto)]

mod faults;
mod header;
mod lines;
mod status;
mod unreadable;
mod vocabulary;

pub use faults::ReadFault;
pub use header::header_of;
pub use lines::{Lines, cut_line, cut_token, is_skipped, move_of};
pub use status::Status;
pub use unreadable::{Expected, unreadable_header, unreadable_move};
pub use vocabulary::{
    LOCK_NAMES, MOVE_NAMES, OUTCOME_NAMES, lock_named, lock_text, move_block, move_named,
    move_text, number_of, outcome_block, outcome_named, outcome_text, whole_number,
};
