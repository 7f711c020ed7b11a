//! How a test fails in a row of a table. To prove a call takes less time than to prove an assertion
//! with a message, and most tests have several.

ghost use Rattle.std.specs.Prelude.{◌≡◌, true};

use std::process::Abort;

/// Ends the test, and tells the row, unless this is right.
pub fn holds(rt: &impl Abort, is_right: bool, row: &str)
    ensures { is_right ≡ true }
{
    assert!(rt; is_right, "{row}");
}

/// The same at a line of the row.
pub fn holds_at(rt: &impl Abort, is_right: bool, row: &str, line: u32)
    ensures { is_right ≡ true }
{
    assert!(rt; is_right, "{row}: line {line}");
}
