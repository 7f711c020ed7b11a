//! Each public call of the libraries, as a caller writes it.
//!
//! A file for each library shows its calls: `words`, `locks`, `replay` and `workers`. Types of
//! arguments and results are written out, so that a call that changes its form, or loses its name,
//! stops this crate from compiling. `values` does the same for enums and structs. The calls of the
//! program are in its own module `surface`, since no crate can use a program.
#![tactic(auto)]

pub mod locks;
pub mod replay;
pub mod values;
pub mod words;
pub mod workers;
