//! The calls by which a caller of `replay_many` follows its workers.

/// Workers call it before and after each text, from their threads.
pub trait Gate: Sync {
    /// A worker begins with the text of this number, from 0.
    fn begin(&self, number: u32);

    /// The same worker has ended with that text, also if memory was refused.
    fn end(&self, number: u32);
}

/// A gate that does nothing.
#[derive(Clone, Copy, PartialEq, Eq, Debug)]
pub struct OpenGate;

impl Gate for OpenGate {
    fn begin(&self, _number: u32) {}

    fn end(&self, _number: u32) {}
}
