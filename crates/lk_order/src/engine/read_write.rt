//! The read-write locks' part of an order: their sections come in the order of their count.

ghost use Rattle.std.specs.Prelude.{◌≡◌};
ghost use Rattle.lk_trace.specs.Agreement.{count_in};

use super::Next;
use lk_trace::{Seen, TraceLine};

/// The count that a line gives of its section.
pub fn count_of(line: TraceLine) -> Option<u64>
    ensures { result ≡ count_in line.seen }
{
    match line.seen {
        Seen::WithOutcome { count, .. } => count,
        _ => None,
    }
}

/// The thread whose next section has the lowest count.
pub fn lowest_section(steps: &[Option<Next>]) -> Option<usize> {
    let sections = steps
        .iter()
        .enumerate()
        .filter_map(|(t, next)| Some((count_of(next.as_ref()?.line)?, t)));
    sections.min().map(|(_, t)| t)
}
