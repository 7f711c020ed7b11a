//! Where a run and the machine differ.

ghost use Rattle.std.specs.Prelude.{◌≡◌};
ghost use Rattle.lk_trace.specs.Codes.{difference_name};

use crate::WordName;
use lk_locks::{Outcome, Refusal};

/// The first thing in which a line of a trace differs from the machine.
#[derive(Clone, Copy, PartialEq, Eq, Debug)]
pub enum Difference {
    /// The machine refuses the move.
    Refused(Refusal),
    /// The machine's step is on another word, or on none in particular.
    OtherWord {
        word: Option<WordName>,
        given: WordName,
    },
    /// The word had another value.
    FoundOther {
        word: WordName,
        found: u64,
        given: u64,
    },
    /// The word has another value afterwards.
    LeftOther {
        word: WordName,
        left: u64,
        given: u64,
    },
    /// The compare-and-swap wrote although the line says that it failed, or failed although it says
    /// that it wrote.
    WroteOther {
        wrote: bool,
    },
    /// The count of a monitor's section is not above those before it.
    CountNotAbove {
        last: u64,
        given: u64,
    },
    /// The step has another outcome.
    OtherOutcome {
        outcome: Outcome,
        given: Outcome,
    },
}

impl Difference {
    /// Its name, or that of the lock's refusal.
    pub fn name(self) -> &'static str
        ensures { result.now ≡ difference_name self }
    {
        match self {
            Difference::Refused(refusal) => refusal.name(),
            Difference::OtherWord { .. } => "OtherWord",
            Difference::FoundOther { .. } => "FoundOther",
            Difference::LeftOther { .. } => "LeftOther",
            Difference::WroteOther { .. } => "WroteOther",
            Difference::CountNotAbove { .. } => "CountNotAbove",
            Difference::OtherOutcome { .. } => "OtherOutcome",
        }
    }
}
