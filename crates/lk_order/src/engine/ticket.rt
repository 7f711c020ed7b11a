//! The ticket lock's part of an order: when its steps are proposed, and whose ticket is next.

mod search;

use super::Round;
use crate::Order;
use lk_locks::{Phase, StepKind};
use search::{takes_of, ticket_order};
use std::alloc::{AllocError, Global};

/// When a step is proposed that a thread makes in this phase. Its release ends the looks of others.
pub fn round_of(step: StepKind, phase: Phase) -> Round {
    match (step, phase) {
        (StepKind::Read, _) => Round::Look,
        (StepKind::Write, Phase::PassOn(_)) => Round::Last,
        _ => Round::Change,
    }
}

/// The thread of each ticket, in order, and how many are taken. Empty for another lock.
#[derive(Drop)]
pub struct Tickets {
    threads: Vec<u8>,
    taken: usize,
}

impl Tickets {
    /// No ticket is taken yet.
    pub fn new(alloc: Global, order: &Order) -> Result<Tickets, AllocError> {
        let mut takes = Vec::new(alloc);
        for log in order.logs() {
            takes.push(takes_of(alloc, log.moves(), log.is_cut())?)?;
        }
        Ok(Tickets {
            threads: ticket_order(alloc, &takes, order.header())?,
            taken: 0,
        })
    }

    /// Whether the next ticket is another thread's.
    pub fn wait(&self, t: usize) -> bool {
        self.threads
            .get(self.taken)
            .is_some_and(|thread| *thread as usize != t)
    }

    /// The next ticket is taken.
    pub fn take(&mut self) {
        self.taken = self.taken.saturating_add(1);
    }
}
