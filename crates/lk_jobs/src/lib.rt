//! The jobs of the program `locktrace` that search, each in a module of its own.
//!
//! The logs of a run's threads are put into one order (`order`). All runs of a lock are searched:
//! for the lines of a sketch (`find`, `sketch`), for schedules that take every transition (`tour`),
//! and to be counted or drawn (`space`). Changed locks are searched for what each step is for
//! (`why`).
//!
//! A call that gives an `AllocError` does so only if a request for memory was refused, and one that
//! gives a `SearchFault` only then, or if there are more states than the limit.
#![tactic(auto)]

mod endless;
mod facts;
pub mod find;
mod folder;
pub mod order;
mod part;
mod run;
pub mod sketch;
pub mod space;
pub mod tour;
pub mod why;
