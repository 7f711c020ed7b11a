//! The jobs of the program `locktrace` on traces, each in a module of its own.
//!
//! Traces are checked (`check`), explained (`explain`) and written as schedules (`schedule`), and
//! their kinds of transition are counted (`cover`).
#![tactic(auto)]

pub mod check;
pub mod cover;
pub mod explain;
pub mod schedule;
mod transitions;
