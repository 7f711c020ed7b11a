//! The texts of the programs: the lines of an input, sentences and the values that fill them, and
//! the report of a trace.
//!
//! `open` opens a file or standard input, and `take_lines` gives each line of an input to a
//! function. A `Text` takes sentences and text of an input, which `escaped` gives as it is shown,
//! and `json` objects of JSON. `put_wrong` names the words that could be where a line cannot be
//! read. `Outputs` has what a job writes, and `Failure` says why one was not done. A call gives an
//! `AllocError` only if a request for memory was refused.
//!
//! `follow` follows the trace in an input to its end, or up to the first line that is wrong, and
//! makes its `report`: the verdict, the counts of a `Summary`, in what the line differs
//! (`differences`), what helps to see why (`blame`), and what to do (`helps`). `formats` writes it.
//! `progress` shows on a terminal how far that is.
#![tactic(auto)]

pub mod blame;
pub mod course;
pub mod differences;
mod escapes;
mod failures;
mod fills;
pub mod follow;
pub mod formats;
mod helps;
mod inputs;
pub mod json;
mod lines;
pub mod phrases;
pub mod progress;
pub mod report;
mod summary;
mod texts;
mod wrong;

pub use escapes::escaped;
pub use failures::Failure;
pub use fills::{Place, Value};
pub use inputs::{STANDARD, Source, open};
pub use lines::{Line, Lines, take_lines};
pub use summary::{Summary, has_counter};
pub use texts::{Outputs, Text};
pub use wrong::{put_wrong, wrong_in_header};
