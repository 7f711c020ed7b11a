//! The order of a run: the logs that its threads wrote down by themselves are put into one order in
//! which each step finds what it found.
//!
//! A `LogReader` reads a thread's log line by line. A `Shelf` takes the logs of all threads, in any
//! order, and gives them in the order of the threads. `find_order` puts them together:
//!
//! ```text
//! let mut reader = LogReader::new(alloc);
//! reader.line(line, ended)?;                       // each line, and whether it has a line feed
//! let log = reader.log()?;
//! let mut shelf = Shelf::new(alloc)?;
//! shelf.put(log)?;                                 // each log
//! let logs = shelf.logs(alloc)?;
//! let Some(found) = find_order(alloc, logs)? else { .. };
//! for k in 0..found.order.len() { found.order.line(k) }
//! match found.ending { Ending::Whole, Ending::Cut, Ending::Stuck(stuck) }
//! let mut pieces = Pieces::new(&found.order);
//! while let Some(piece) = pieces.next_piece() { .. }      // moves of the order, for a schedule
//! ```
//!
//! The answer is an order whatever way it was found: each step was made by the checker of traces,
//! with its values, and each thread's steps are the first of its log.
#![tactic(auto)]

mod engine;
mod find;
mod log;
mod order;
mod pieces;
mod shelf;

pub use find::{Ending, Found, Stuck, find_order};
pub use log::{Log, LogFault, LogReader};
pub use order::{Order, Placed};
pub use pieces::{MOST_MOVES, Piece, Pieces};
pub use shelf::{MOST_THREADS, Shelf, Unfit};
