//! The statuses of the programs.

/// How a program ends, for the shell. As a number it is the status, from 0 on.
#[derive(Clone, Copy, PartialEq, Eq, Debug)]
pub enum Status {
    /// Every move was accepted, or what was asked for was found.
    Accepted,
    /// A move was refused, or what was asked for is missing.
    Refused,
    /// The arguments ask for nothing that it does.
    Misused,
    /// A device failed, or a request for memory was refused.
    Failed,
    /// A text is not what it should be.
    Faulty,
}
