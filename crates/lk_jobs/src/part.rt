//! Lines of a sketch that have one order, and what each asks for: a line of a trace in which parts
//! are open, some after `not`, or facts after `is`.

ghost use Rattle.std.specs.Prelude.{◌≡◌, IfSome, Some, length};
ghost use Rattle.lk_locks.specs.State.{State};
ghost use Rattle.lk_locks.specs.Steps.{refusal_of};

use crate::facts::{IS, facts_of};
use lk_locks::{Refusal, Shape, belongs};
use lk_search::{Admitted, Asks, Fact, Rule, SketchFault, admit, is_barring};
use lk_trace::TraceLine;
use std::alloc::{AllocError, Global};
use thiserror::Error;

/// Why a line is none of a sketch.
#[derive(Clone, Copy, PartialEq, Eq, Debug, Error)]
pub enum LineFault {
    #[error("{0}")]
    Unread(SketchFault),
    /// Each lock of the header's shape refuses this move, whatever was done before.
    #[error("no run has this line: {} ({})", .0.message(), .0.name())]
    Never(Refusal),
    /// After `is` there is something that is no fact of the lock.
    #[error("not facts of this lock: 'hold T', 'queue T,..', 'T at PHASE' or 'WORD V', with ', ' \
         between them (BadFact)")]
    NoFact,
    /// It is a comment that begins as a remark on the search, and is none.
    #[error("not a remark of a sketch: '#! rounds R' (BadRemark)")]
    NoRemark,
    /// It begins with `not`, and is the last.
    #[error("'not' holds up to the next line, and there is none (NoNextLine)")]
    Endless,
}

/// Why a line is none of a sketch, if it is none.
pub type Faulted = Result<Option<LineFault>, AllocError>;

// Why each lock of this shape refuses the move of a line, whatever was done before.
fn always_refused(header: Shape, line: &TraceLine) -> Option<Refusal>
    ensures { IfSome result (λ refusal. (s : State) → s.kind ≡ header.kind
        → length s.phases ≡ header.threads
        → refusal_of s line.now.thread line.now.action ≡ Some refusal) }
{
    if line.thread >= header.threads() {
        return Some(Refusal::NoSuchThread);
    }
    if !belongs(header.kind(), line.action) {
        return Some(Refusal::WrongLock);
    }
    None
}

/// How a line of a sketch occurs in a run.
#[derive(Clone, Copy, PartialEq, Eq)]
pub enum Occurs {
    AsMove,
    AsPosition,
    /// It says which moves must not occur before the next line that has to.
    Never,
}

/// A line of a sketch, as it was written.
#[derive(Drop)]
pub struct SketchLine {
    pub text: String,
    pub occurs: Occurs,
}

// How a line occurs.
fn occurrence_of(line: &str) -> Occurs {
    if is_barring(line.as_bytes()) {
        Occurs::Never
    } else if line.starts_with(IS) {
        Occurs::AsPosition
    } else {
        Occurs::AsMove
    }
}

/// Lines of a sketch, in their order.
#[derive(Drop)]
pub struct Part {
    pub lines: Vec<SketchLine>,
    /// How many of these are to occur.
    pub count: u8,
    /// The moves and positions that each line admits, and the moves that it bars.
    pub admitted: Vec<Admitted>,
}

impl Part {
    /// No lines.
    pub fn new(alloc: Global) -> Part {
        Part {
            lines: Vec::new(alloc),
            count: 0,
            admitted: Vec::new(alloc),
        }
    }

    /// Whether the last line holds up to a next one.
    pub fn is_open(&self) -> bool {
        self.lines
            .last()
            .is_some_and(|line| line.occurs == Occurs::Never)
    }

    // Why no run has any of the moves from this one on, which the last line admits or bars.
    fn never(&self, header: Shape, first: usize) -> Option<LineFault> {
        let mut why = None;
        for admitted in self.admitted.get(first..)? {
            let Asks::Line(line) = admitted.asks else {
                return None;
            };
            why = Some(always_refused(header, &line)?);
        }
        why.map(LineFault::Never)
    }

    // How many lines are to occur after one more. `None` if these are too many.
    fn count_after(&self, occurs: Occurs) -> Option<u8> {
        match occurs {
            Occurs::Never => Some(self.count),
            Occurs::AsMove | Occurs::AsPosition => self.count.checked_add(1),
        }
    }

    // Adds the facts that a line asks for.
    fn add_facts(&mut self, facts: &[Fact]) -> Result<(), AllocError> {
        let rule = Rule {
            line: self.count,
            bars: false,
        };
        for fact in facts {
            let asks = Asks::Position(*fact);
            self.admitted.push(Admitted { rule, asks })?;
        }
        Ok(())
    }

    // Adds all that a line asks for, or answers why it is none.
    fn add(&mut self, alloc: Global, header: Shape, line: &str) -> Faulted {
        if let Some(text) = line.strip_prefix(IS) {
            let Some(facts) = facts_of(alloc, header, text)? else {
                return Ok(Some(LineFault::NoFact));
            };
            self.add_facts(facts.as_slice())?;
            return Ok(None);
        }
        let (kind, threads, text) = (header.kind(), header.threads(), line.as_bytes());
        let is_line = admit(&mut self.admitted, kind, threads, self.count, text)?;
        Ok((!is_line).then_some(LineFault::Unread(SketchFault::BadLine)))
    }

    /// Adds what a line admits or bars, or answers why it is none.
    pub fn admit(&mut self, alloc: Global, header: Shape, line: &str) -> Faulted {
        let first = self.admitted.len();
        let fault = self.add(alloc, header, line)?;
        Ok(fault.or_else(|| self.never(header, first)))
    }

    /// Adds the text of a line.
    pub fn note(&mut self, alloc: Global, line: &str, occurs: Occurs) -> Result<(), AllocError> {
        let text = String::from_str(alloc, line)?;
        self.lines.push(SketchLine { text, occurs })?;
        Ok(())
    }

    /// Adds a line for a lock of this shape, or answers why it is none.
    pub fn take(&mut self, alloc: Global, header: Shape, line: &str) -> Faulted {
        let occurs = occurrence_of(line);
        let Some(count) = self.count_after(occurs) else {
            return Ok(Some(LineFault::Unread(SketchFault::TooManyLines)));
        };
        let fault = self.admit(alloc, header, line)?;
        self.note(alloc, line, occurs)?;
        self.count = count;
        Ok(fault)
    }

    /// Adds a line that every position meets, or answers that these are too many.
    pub fn take_always(&mut self, alloc: Global, line: &str) -> Faulted {
        let Some(count) = self.count_after(Occurs::AsPosition) else {
            return Ok(Some(LineFault::Unread(SketchFault::TooManyLines)));
        };
        self.add_facts(&[Fact::Always])?;
        self.note(alloc, line, Occurs::AsPosition)?;
        self.count = count;
        Ok(None)
    }
}
