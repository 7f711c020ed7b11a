//! Worked histories and states, which are contracts, proved and not run; and the tests of the
//! libraries in which requests for memory are refused.
//!
//! A test of this crate is proved before it is run. Those in tests/library are not: they are
//! modules of this crate, too, while they run, but in a copy of it and under an allocator that
//! refuses nothing. What the built programs show is not tried in either: reports, and each request
//! for memory refused on each worked row (tests/lockreplay); traces and orders (tests/locktrace);
//! the sizes, sketches and tours of small locks (tests/oracle).
#![tactic(auto)]

#[cfg(test)]
mod batches;
#[cfg(test)]
mod holding;
#[cfg(test)]
mod refused_memory;
#[cfg(test)]
mod refused_rows;
#[cfg(test)]
mod refusing;
#[cfg(test)]
mod rows;
pub mod worked_histories;
pub mod worked_states;
pub mod worked_waits;
