//! How far each thread of a run has come: whether it waits after its last move, and what the text
//! says of its end, in comments that a recorder writes after the last move. And what is
//! remembered for the words on how the run ended, which does not grow with it.

ghost use Rattle.std.specs.Prelude.{◌≡◌, List, Some};
ghost use Rattle.lk_text.specs.Fates.{after_comment, after_line, fate_after, hangs, is_hung};
ghost use Rattle.lk_text.specs.Fates.{is_over, new_fates, said_before, said_of};
ghost use Rattle.lk_text.specs.declared.course.Fate.{Fate as OfThread};
ghost use Rattle.std.specs.List.{list_all, list_any};

use lk_lines::number_of;
use lk_locks::{Move, Outcome, StepKind};
use lk_trace::{Event, Made, TraceLine};
use std::marker::Model;

/// How far a thread of a run has come.
#[derive(Clone, Copy)]
pub enum Fate {
    /// It has made no move, or does not wait after its last one.
    Moved,
    /// It waits after its last move.
    Waits,
    /// The text says that it has ended.
    Ended,
    /// It waits after its last move, and the text says that it has not ended.
    Hangs,
}

// Whether each of these threads has ended or hangs.
fn are_over(fates: &[Fate]) -> bool
    ensures { result ≡ list_all is_over fates.now }
{
    fates
        .iter()
        .all(|fate| matches!(fate, Fate::Ended | Fate::Hangs))
}

// Whether one of these threads hangs.
fn one_hangs(fates: &[Fate]) -> bool
    ensures { result ≡ list_any is_hung fates.now }
{
    fates.iter().any(|fate| matches!(fate, Fate::Hangs))
}

// The most bytes of a comment that says something of a thread.
const MOST_OF_A_COMMENT: usize = 96;

// Which thread a comment says to have ended, or not to have: the words before `ended`.
fn said_before(front: &[u8]) -> Option<(u8, bool)>
    ensures { result ≡ said_before front.now }
{
    match front.strip_suffix(b" has".as_slice()) {
        Some(number) => Some((number_of(number, 0, 63)?, true)),
        None => {
            let number = front.strip_suffix(b" has not".as_slice())?;
            Some((number_of(number, 0, 63)?, false))
        }
    }
}

/// Which thread a comment says to have ended, or not to have.
pub fn said_of(line: &[u8]) -> Option<(u8, bool)>
    ensures { result ≡ said_of line.now }
{
    if line.len() > MOST_OF_A_COMMENT {
        return None;
    }
    let text = line.strip_prefix(b"# thread ".as_slice())?;
    said_before(text.strip_suffix(b" ended".as_slice())?)
}

// The most threads of a lock.
const MOST_THREADS: usize = 64;

// The most words of a lock: those of an MCS lock.
const MOST_WORDS: usize = 129;

/// A move, and the line that it is in, from 1.
#[derive(Clone, Copy)]
pub struct Step {
    pub number: u64,
    pub line: TraceLine,
    pub made: Made,
}

// How far a thread is after a move. It waits after a failed poll, and after the section in which a
// FIFO writer finds readers, and sleeps.
fn fate_after(action: Move, outcome: Outcome) -> Fate
    ensures { result ≡ fate_after action outcome }
{
    match (action, outcome) {
        (_, Outcome::Waits) => Fate::Waits,
        (Move::Step(StepKind::Section), Outcome::Moved) => Fate::Waits,
        _ => Fate::Moved,
    }
}

// The place of the word that a move writes, if it is one operation on one word.
fn write_of(action: Move, made: Made) -> Option<usize> {
    let effect = made.effect?;
    match action {
        Move::Step(StepKind::Read) | Move::Call(_) => None,
        Move::Step(StepKind::Cas) if effect.found == effect.left => None,
        _ => Some(effect.word),
    }
}

/// How far each thread of a run has come. A contract sees a list with a place for each `u8`.
#[derive(Drop)]
pub struct Course {
    fates: [Fate; 256],
    // of each thread the last moves, with the last one first
    steps: [[Option<Step>; 3]; 64],
    // the line of the first move in a row after which the thread waits; 0 if it does not wait
    since: [u64; 64],
    // the last write to each word
    writes: [Option<Step>; 129],
}

impl Model for Course {
    ghost Value = { List OfThread };

    ghost view = { λ a. a.fates };
}

impl Course {
    /// No line was read.
    pub fn new() -> Course
        ensures { result ≡ new_fates }
    {
        Course {
            fates: [Fate::Moved; 256],
            steps: [[None; 3]; 64],
            since: [0; 64],
            writes: [None; 129],
        }
    }

    /// A thread has ended, or has not.
    pub fn end(&mut self, thread: u8, has_ended: bool)
        ensures { self.new ≡ after_comment self.old (Some (thread, has_ended)) }
    {
        let t = thread as usize;
        let fates = &mut self.fates;
        fates[t] = match (has_ended, fates[t]) {
            (true, _) => Fate::Ended,
            (false, Fate::Waits | Fate::Hangs) => Fate::Hangs,
            (false, _) => Fate::Moved,
        };
    }

    // A move was made, in the line of this number.
    fn remember(&mut self, number: u64, line: TraceLine, made: Made)
        ensures { self.new ≡ self.old }
    {
        let t = line.thread as usize;
        if t >= MOST_THREADS {
            return;
        }
        let (steps, since, writes) = (&mut self.steps, &mut self.since, &mut self.writes);
        let step = Some(Step { number, line, made });
        let [last, before, _] = steps[t];
        steps[t] = [step, last, before];
        since[t] = match (fate_after(line.action, made.outcome), since[t]) {
            (Fate::Waits, 0) => number,
            (Fate::Waits, first) => first,
            _ => 0,
        };
        match write_of(line.action, made) {
            Some(place) if place < MOST_WORDS => writes[place] = step,
            _ => {}
        }
    }

    /// The line of this number, from 1, was read, and came to this.
    pub fn take(&mut self, number: u64, line: &[u8], event: &Event)
        ensures { self.new ≡ after_line self.old event.now line.now }
    {
        match *event {
            Event::Skipped => {
                if let Some((thread, has_ended)) = said_of(line) {
                    self.end(thread, has_ended);
                }
            }
            Event::Made(line, made) => {
                self.remember(number, line, made);
                let fate = fate_after(line.action, made.outcome);
                let fates = &mut self.fates;
                fates[line.thread as usize] = fate;
            }
            _ => {}
        }
    }

    /// The thread's last moves, the last one first.
    pub fn steps(&self, thread: u8) -> [Option<Step>; 3] {
        let steps = self.steps.get(thread as usize);
        steps.copied().unwrap_or([None; 3])
    }

    /// The line since which the thread has waited after each of its moves.
    pub fn since(&self, thread: u8) -> Option<u64> {
        self.since.get(thread as usize).copied().filter(|n| *n > 0)
    }

    /// The last write to the word at this place, and what it left there.
    pub fn written(&self, place: usize) -> Option<(Step, u64)> {
        let step = (*self.writes.get(place)?)?;
        Some((step, step.made.effect?.left))
    }

    /// How far a thread has come.
    pub fn fate(&self, thread: u8) -> Fate {
        self.fates[thread as usize]
    }

    /// Whether the run of so many threads hangs: each of them has ended, or waits after its last
    /// move and has not ended, as one at least.
    pub fn hangs(&self, threads: u8) -> bool
        ensures { result ≡ hangs threads self.now }
    {
        let fates = &self.fates[..threads as usize];
        are_over(fates) && one_hangs(fates)
    }
}
