//! Many schedules at once, and a ticket lock that the caller's own threads step through.
//!
//! Both are built over a few shared words and seats. A thread steps with a seat of its own. A step
//! is one atomic operation on one word, and an invariant of the words and all seats holds between
//! any two steps. No call waits, locks or needs unsafe code.
#![tactic(auto)]

mod amount;
mod batch;
mod draws;
mod gate;
mod live;
mod many;

pub use batch::batch_text;
pub use draws::{DrawSeat, Draws, each_number_once};
pub use gate::{Gate, OpenGate};
pub use live::laws::{
    look_is_the_read, pass_is_the_write, read_serving_is_the_read, rule_is_the_lock,
    take_is_the_add,
};
pub use live::{LivePhase, LiveSeat, LiveTicket};
pub use many::replay_many;
