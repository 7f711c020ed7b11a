//! A search ends with one of these answers.

ghost use Rattle.std.specs.Prelude.{◌≡◌};
ghost use Rattle.lk_page.specs.Sought.{sought_code, sought_number};

use lk_search::SketchFault;

/// The answer to a search for the lines of a sketch.
#[derive(Clone, Copy)]
pub enum Sought {
    /// A shortest run that has them has so many moves.
    Found { moves: usize },
    /// No run has them: so many states are all that there are.
    Nowhere { states: usize },
    /// More states than these would have to be searched.
    TooLarge { states: usize },
    /// There is a run, and no room for its moves.
    LongRun,
    /// The text is no sketch, by this line.
    NoSketch(u32, SketchFault),
}

/// The number of an answer.
pub fn sought_code(sought: Sought) -> u64
    ensures { result ≡ sought_code sought }
{
    match sought {
        Sought::Found { .. } => 0,
        Sought::Nowhere { .. } => 1,
        Sought::TooLarge { .. } => 2,
        Sought::LongRun => 3,
        Sought::NoSketch(_, SketchFault::TooManyLines) => 5,
        Sought::NoSketch(_, SketchFault::NoRoom) => 6,
        Sought::NoSketch(_, _) => 4,
    }
}

/// The moves, states or line of an answer, and 0 if it has none.
pub fn sought_number(sought: Sought) -> u64
    ensures { result ≡ sought_number sought }
{
    match sought {
        Sought::Found { moves } => moves as u64,
        Sought::Nowhere { states } | Sought::TooLarge { states } => states as u64,
        Sought::LongRun => 0,
        Sought::NoSketch(line, _) => u64::from(line),
    }
}
