//! The check of a run, move by move: each is made on the lock's machine, and what its thread saw is
//! compared with the machine's words.

ghost use Rattle.std.specs.Prelude.{◌≡◌, ◌<◌, ◌≤◌, ◌^◌, ◌↔◌, None, length, IsOk, OnOk, SomeIff};
ghost use Rattle.lk_locks.specs.State.{phase_at};
ghost use Rattle.lk_trace.specs.Agreement.{Agrees, IsCounted, count_in};
ghost use Rattle.lk_trace.specs.Checks.{after_line, answer_to, count_given, difference_of};
ghost use Rattle.lk_trace.specs.Checks.{new_lock, next_made, Checked};

use crate::compare::made_of;
use crate::{Difference, Seen, TraceLine, check_line};
use lk_locks::{LockKind, Move, Outcome, Phase, SectionEffect, Shape, Tracker};
use lk_words::{Effect, WordArray};
use std::marker::Model;

/// A move that was made.
#[derive(Clone, Copy, PartialEq, Eq, Debug)]
pub struct Made {
    /// The phase of its thread before it.
    pub from: Phase,
    pub outcome: Outcome,
    /// Its effect on its word, if it was one operation on one word.
    pub effect: Option<Effect>,
    /// Its effect on the words of its monitor, if it was a section.
    pub section: Option<SectionEffect>,
}

/// A lock on which a run is made again. A contract sees the lock, and the greatest count of a
/// section that was given so far.
#[derive(Drop)]
pub struct Checker {
    lock: Tracker<WordArray>,
    sections: u64,
}

impl Model for Checker {
    ghost Value = { Checked };

    ghost view = { λ a. record { lock = a.lock; sections = a.sections } };
}

// The greatest count that was given, with this line's.
fn count_given(last: u64, seen: Seen) -> u64
    ensures { result ≡ count_given last seen }
{
    match seen {
        Seen::WithOutcome { count, .. } => count.unwrap_or(last),
        _ => last,
    }
}

impl Checker {
    /// A new lock of this shape.
    pub fn new(shape: Shape) -> Checker
        ensures { result ≡ new_lock shape }
    {
        Checker {
            lock: Tracker::at_start(shape),
            sections: 0,
        }
    }

    /// The lock, to look at.
    pub fn lock(&self) -> &Tracker<WordArray>
        ensures { result.now ≡ self.now.lock }
    {
        &self.lock
    }

    /// The phase of a thread, if there is such a thread.
    pub fn phase(&self, t: u8) -> Option<Phase>
        ensures { SomeIff result (t < length self.now.lock.state.phases)
            (phase_at self.now.lock.state.phases t) }
    {
        let machine = self.lock.machine();
        if t < machine.threads() {
            Some(machine.phase(t))
        } else {
            None
        }
    }

    /// Returns the step that a thread makes next, as it would be made now. There is none if there
    /// is no such thread, or if it has no pending call.
    pub fn next_made(&self, t: u8) -> Option<(Move, Made)>
        ensures { result ≡ next_made self.now.lock.state t }
    {
        let machine = self.lock.machine();
        if t >= machine.threads() {
            return None;
        }
        let step = Move::Step(machine.next_step(t)?);
        Some((step, made_of(machine, t, step)))
    }

    /// Where the line differs from the machine first, with nothing changed.
    pub fn difference(&self, line: TraceLine) -> Option<Difference>
        ensures value { result ≡ difference_of self.now line }
        ensures agrees { result ≡ None ↔ Agrees self.now line }
    {
        check_line(self.lock.machine(), self.sections, line).err()
    }

    /// Makes the move of a line. It is accepted exactly if the machine accepts it and each part
    /// that the line gives is the machine's.
    ///
    /// # Errors
    ///
    /// The first difference. Then nothing has changed.
    pub fn step(&mut self, line: TraceLine) -> Result<Made, Difference>
        ensures accepted { IsOk result ↔ Agrees self.old line }
        ensures counted { OnOk result
            (IsCounted self.old.sections (count_in line.seen) self.new.sections) }
        ensures answer { result ≡ answer_to self.old line }
        ensures after { self.new ≡ after_line self.old line }
    {
        let made = check_line(self.lock.machine(), self.sections, line)?;
        self.sections = count_given(self.sections, line.seen);
        let _accepted = self.lock.play(line.thread, line.action);
        Ok(made)
    }
}
