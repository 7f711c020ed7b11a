//! Schedule texts, their replays and their reports.
#![tactic(auto)]

mod devices;
mod ending;
mod part;
mod played;
mod report;
mod schedule;
mod stream;
mod theorems;

pub use devices::{RunFault, read_text, send};
pub use ending::{Ending, ending_of};
pub use lk_lines::ReadFault;
pub use part::report_part;
pub use played::{Accepted, Played, replay};
pub use report::report_of;
pub use schedule::{Line, Schedule, open_schedule, read_header, read_move, read_schedule};
pub use stream::{run, status_of};
pub use theorems::every_report_is_as_promised;
