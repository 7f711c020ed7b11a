//! A number as a type. A table names each way to split a view by a type, so a type says how much a
//! call gives to the new seat.

ghost use Rattle.std.specs.Prelude.{ℕ};

use std::marker::{Brand, PhantomData};

/// A type that represents a number.
pub trait Amount {
    /// The number.
    ghost amount: { ℕ };
}

impl Amount for Brand {
    ghost amount = { 0 };
}

/// A split of a view: this amount of what its seat has left goes to a new seat.
pub struct SplitOff<A> {
    amount: PhantomData<A>,
}
