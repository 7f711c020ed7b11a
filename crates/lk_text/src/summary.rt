//! The contention of a run: waits, failed compare-and-swaps, polls of a late link, the longest
//! queue, wraps of the counter.

ghost use Rattle.std.specs.Prelude.{◌≡◌, ◌∷◌, [], codes, decimal, map};
ghost use Rattle.lk_text.specs.Filled.{sentence_with};
ghost use Rattle.lk_text.specs.Texts.{Adds};
ghost use Rattle.lk_text.specs.Summaries.{after_lock, after_step, after_wait, counts_of};
ghost use Rattle.lk_text.specs.Summaries.{has_counter, is_contended, moved_in, new_summary};
ghost use Rattle.lk_text.specs.Summaries.{numbers_of, summary_with};

use crate::fills::Value;
use crate::texts::Text;
use lk_locks::{LockKind, Move, Outcome, Phase, StepKind, Tracker};
use lk_trace::{Made, TraceLine, WordName, name_at};
use lk_words::WordArray;

/// Counts along a trace. They stay at their greatest value.
#[derive(Clone, Copy)]
pub struct Summary {
    // whether each thread moved
    moved: [bool; 256],
    moves: u64,
    waits: u64,
    failed: u64,
    late: u64,
    longest: usize,
    wraps: u64,
    counter: u64,
}

const COUNTS: &str = "{threads}, {moves}, {waits}, {failed}, {late}, longest queue {longest}, \
    {wraps}";

/// Whether the first word of the lock counts without end.
pub fn has_counter(kind: LockKind) -> bool
    ensures { result ≡ has_counter kind }
{
    matches!(
        name_at(kind, 0),
        Some(WordName::NextTicket | WordName::ReadAcquires)
    )
}

// The number of the threads that moved.
fn moved_in(moved: &[bool]) -> usize
    ensures { result ≡ moved_in moved.now }
{
    moved.iter().filter(|moved| **moved).count()
}

impl Summary {
    /// Nothing was counted.
    pub(crate) fn new() -> Summary
        ensures { result ≡ new_summary }
    {
        Summary {
            moved: [false; 256],
            moves: 0,
            waits: 0,
            failed: 0,
            late: 0,
            longest: 0,
            wraps: 0,
            counter: 0,
        }
    }

    /// Whether some thread waited.
    pub fn is_contended(&self) -> bool
        ensures { result ≡ is_contended self.now }
    {
        self.waits > 0 || self.late > 0 || self.failed > 0
    }

    /// How often the lock's counter wrapped around.
    pub fn wraps(&self) -> u64
        ensures { result ≡ self.now.wraps }
    {
        self.wraps
    }

    // Counts a failed poll of a thread in this phase.
    fn note_wait(&mut self, from: Phase)
        ensures { self.new ≡ after_wait self.old from }
    {
        match from {
            Phase::AwaitLink => self.late = self.late.saturating_add(1),
            _ => self.waits = self.waits.saturating_add(1),
        }
    }

    // Counts a step that may have changed who is in the queue, and the lock's counter.
    fn note_lock(&mut self, lock: &Tracker<WordArray>)
        ensures { self.new ≡ after_lock self.old lock.now }
    {
        self.longest = self.longest.max(lock.queue().len());
        if has_counter(lock.kind()) {
            let words = lock.machine().words().as_slice();
            let now = words.first().copied().unwrap_or(0);
            if now < self.counter {
                self.wraps = self.wraps.saturating_add(1);
            }
            self.counter = now;
        }
    }

    // Counts a step that was no failed poll.
    fn note_step(&mut self, lock: &Tracker<WordArray>, step: StepKind, outcome: Outcome)
        ensures { self.new ≡ after_step self.old lock.now step outcome }
    {
        match (step, outcome) {
            (StepKind::Cas, Outcome::Moved) => self.failed = self.failed.saturating_add(1),
            (StepKind::Add | StepKind::Swap | StepKind::Section, _) => self.note_lock(lock),
            _ => {}
        }
    }

    /// Counts a move that was made on this lock.
    pub fn note(&mut self, lock: &Tracker<WordArray>, line: TraceLine, made: Made)
        ensures { self.new ≡ summary_with self.old lock.now line made }
    {
        self.moves = self.moves.saturating_add(1);
        self.moved[line.thread as usize] = true;
        if let Move::Step(step) = line.action {
            if made.outcome == Outcome::Waits {
                self.note_wait(made.from);
            } else {
                self.note_step(lock, step, made.outcome);
            }
        }
    }

    /// The number of threads that moved.
    pub(crate) fn threads(&self) -> usize
        ensures { result ≡ moved_in self.now.moved }
    {
        moved_in(&self.moved)
    }

    /// The counts, each with its name in JSON.
    pub fn counts(&self) -> [(&'static str, u64); 7]
        ensures { map (λ p. p.1) result ≡ numbers_of self.now }
    {
        [
            ("threads", self.threads() as u64),
            ("moves", self.moves),
            ("waits", self.waits),
            ("failed_cas", self.failed),
            ("late_link_polls", self.late),
            ("longest_queue", self.longest as u64),
            ("wraps", self.wraps),
        ]
    }

    /// Writes the counts, as a sentence.
    pub fn put(&self, text: &mut Text)
        ensures { Adds (sentence_with (counts_of self.now) COUNTS.now) text.old text.new }
    {
        let threads = self.threads() as u64;
        let (cas, several) = ("failed compare-and-swap", "failed compare-and-swaps");
        let (late, polls) = ("poll of a late link", "polls of a late link");
        let (wrap, wraps) = ("wrap of the counter", "wraps of the counter");
        let places = [
            ("threads", Value::Count(threads, "thread", "threads")),
            ("moves", Value::Count(self.moves, "move", "moves")),
            ("waits", Value::Count(self.waits, "wait", "waits")),
            ("failed", Value::Count(self.failed, cas, several)),
            ("late", Value::Count(self.late, late, polls)),
            ("longest", Value::Number(self.longest as u64)),
            ("wraps", Value::Count(self.wraps, wrap, wraps)),
        ];
        text.fill(COUNTS, &places);
    }
}
