//! Which thread's step comes next. It is proposed, and no more: a mistake here can only end in an
//! order that is not found.
//!
//! Steps are proposed in rounds. A look is a step that changes no word that another thread can
//! read. Looks and calls come first, each as soon as the machine's word holds what it found:
//! nothing is lost by it. When none is left, a step that changes a word is proposed that nobody
//! has still to look at before. Last come the steps that end what others may look at: the release
//! of a ticket lock, and a swap that finds nobody; of these the one whose chain has no end comes
//! after the others. A monitor's sections come in the order of their count.
//!
//! A thread whose step was not placed sleeps until a step is placed that it may have waited for:
//! one on its word, or the section before its own. So each step is asked for as often as its word
//! changes, and not as often as any step is placed.

mod mcs;
mod read_write;
mod ticket;

use crate::Order;
use lk_locks::{LockKind, Move, Phase, StepKind, operation_of};
use lk_trace::{Seen, TraceLine};
use lk_words::Words;
use mcs::Acquires;
pub use read_write::count_of;
use read_write::lowest_section;
use std::alloc::{AllocError, Global};
use ticket::Tickets;

/// When a step is proposed.
#[derive(Clone, Copy)]
enum Round {
    Look,
    Change,
    Last,
    /// A swap that finds nobody, and begins a chain whose end is cut off.
    CutOff,
    /// A swap that finds nobody, after which no other swap does.
    Endless,
}

// The next step of a thread, and what is known of it.
#[derive(Clone, Copy)]
struct Next {
    line: TraceLine,
    // of its thread, before it
    phase: Phase,
    // the word that it is on
    word: Option<usize>,
    round: Round,
    asleep: bool,
}

// The value that a line gives as found.
fn found_of(line: TraceLine) -> Option<u64> {
    match line.seen {
        Seen::OnWord { found, .. } => found,
        _ => None,
    }
}

// When a step of this lock is proposed that a thread makes in this phase.
fn round_of(kind: LockKind, line: TraceLine, phase: Phase) -> Round {
    let Move::Step(step) = line.action else {
        return Round::Look;
    };
    match kind {
        LockKind::Ticket => ticket::round_of(step, phase),
        LockKind::Mcs => mcs::round_of(line, step, phase),
        LockKind::RwSimple | LockKind::RwFifo => Round::Change,
    }
}

// In the order in which they are asked.
const ROUNDS: [Round; 5] = [
    Round::Look,
    Round::Change,
    Round::Last,
    Round::CutOff,
    Round::Endless,
];

// The next step of a thread. None if its log has ended.
fn next_of(order: &Order, t: u8) -> Option<Next> {
    let line = order.next(t)?;
    let phase = order.checker().phase(t)?;
    let word = match line.action {
        Move::Call(_) => None,
        // which word it is does not depend on the bits
        Move::Step(_) => {
            operation_of(order.header().kind(), 64, t, phase).map(|operation| operation.word())
        }
    };
    Some(Next {
        line,
        phase,
        word,
        round: round_of(order.header().kind(), line, phase),
        asleep: false,
    })
}

// Whether a word of the lock has another value than a step found.
fn has_other_value(order: &Order, next: &Next) -> bool {
    let (Some(place), Some(found)) = (next.word, found_of(next.line)) else {
        return false;
    };
    let words = order.checker().lock().machine().words();
    place < words.size() && words.get(place) != found
}

/// The facts known of a run, and the next lines of its threads.
#[derive(Drop)]
pub struct Engine {
    next: [Option<Next>; 64],
    // the thread that is asked first
    from: usize,
    acquires: Acquires,
    tickets: Tickets,
}

impl Engine {
    /// Nothing is placed yet.
    pub fn new(alloc: Global, order: &Order) -> Result<Engine, AllocError> {
        let mut next = [None; 64];
        for t in 0..order.header().threads() {
            next[t as usize] = next_of(order, t);
        }
        Ok(Engine {
            next,
            from: 0,
            acquires: Acquires::new(alloc, order)?,
            tickets: Tickets::new(alloc, order)?,
        })
    }

    // Whether another thread's step has to come before this one.
    fn waits(&self, order: &Order, t: usize, next: &Next) -> bool {
        match (next.line.action, next.phase) {
            (Move::Step(StepKind::Swap), _) => {
                self.acquires.swap_waits(order, t, found_of(next.line))
            }
            (Move::Step(StepKind::Add), _) => self.tickets.wait(t),
            (Move::Step(StepKind::Section), _) => {
                count_of(next.line).is_some() && lowest_section(&self.next) != Some(t)
            }
            (Move::Step(StepKind::Write), Phase::LinkTo(before)) => {
                self.acquires.link_waits(order, before)
            }
            _ => false,
        }
    }

    // A thread that may make its step in this round. Those that may not are put to sleep.
    fn choose_in(&mut self, order: &Order, round: Round) -> Option<u8> {
        let (from, threads) = (self.from, order.header().threads() as usize);
        for i in 0..threads {
            let t = from.saturating_add(i) % threads;
            let Some(Some(next)) = self.next.get_mut(t) else {
                continue;
            };
            if next.asleep || next.round != round {
                continue;
            }
            if round == Round::Last && next.line.action == Move::Step(StepKind::Swap) {
                next.round = self.acquires.round_of_swap(t);
                if next.round != round {
                    continue;
                }
            }
            let next = *next;
            if !has_other_value(order, &next) && !self.waits(order, t, &next) {
                return Some(t as u8);
            }
            self.put_asleep(t, true);
        }
        None
    }

    /// The thread whose step is proposed.
    pub fn choose(&mut self, order: &Order) -> Option<u8> {
        ROUNDS
            .into_iter()
            .find_map(|round| self.choose_in(order, round))
    }

    fn put_asleep(&mut self, t: usize, asleep: bool) {
        if let Some(Some(next)) = self.next.get_mut(t) {
            next.asleep = asleep;
        }
    }

    /// The step that was proposed differs from the lock, as it is.
    pub fn failed(&mut self, t: u8) {
        self.put_asleep(t as usize, true);
    }

    // Wakes the threads whose step is on this word.
    fn wake_on(&mut self, word: usize) {
        for next in self.next.iter_mut().flatten() {
            if next.word == Some(word) {
                next.asleep = false;
            }
        }
    }

    // Wakes who may have waited for the step of thread t that was placed.
    fn wake(&mut self, order: &Order, t: u8, made: &Next) {
        match (made.line.action, made.word) {
            (Move::Step(StepKind::Section), _) => {
                if let Some(lowest) = lowest_section(&self.next) {
                    self.put_asleep(lowest, false);
                }
            }
            (Move::Call(_) | Move::Step(StepKind::Read), _) => {}
            (_, Some(word)) => self.wake_on(word),
            _ => {}
        }
        if let Some(word) = self.acquires.awaited_link(order, t) {
            self.wake_on(word);
        }
    }

    /// The step that was proposed is placed.
    pub fn placed(&mut self, order: &Order, t: u8) {
        let thread = t as usize;
        let Some(Some(made)) = self.next.get(thread).copied() else {
            return;
        };
        match made.line.action {
            Move::Step(StepKind::Swap) => self.acquires.begin(thread),
            Move::Step(StepKind::Add) => self.tickets.take(),
            _ => {}
        }
        self.next[thread] = next_of(order, t);
        self.from = thread;
        self.wake(order, t, &made);
    }
}
