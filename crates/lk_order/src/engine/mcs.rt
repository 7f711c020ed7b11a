//! The MCS lock's part of an order: when its steps are proposed, and which acquire may begin.
//!
//! A step that others may still look before is the last: a swap that finds nobody. Of these the one
//! whose chain has no end comes after the others.

mod chains;
mod instances;

use super::Round;
use crate::Order;
use chains::{Chains, End};
use instances::{Instance, Neighbor, instances_of};
use lk_locks::{LockKind, Phase, StepKind, operation_of};
use lk_trace::{Seen, TraceLine};
use std::alloc::{AllocError, Global};

/// When a step is proposed that a thread makes in this phase. Nobody else can find the record that
/// it sets up before its swap.
pub fn round_of(line: TraceLine, step: StepKind, phase: Phase) -> Round {
    match (step, line.seen, phase) {
        (StepKind::Read, ..) => Round::Look,
        (StepKind::Write, _, Phase::ClearNext | Phase::SetLocked(_)) => Round::Look,
        (StepKind::Cas, Seen::OnWord { wrote, .. }, _) if wrote == Some(false) => Round::Look,
        (StepKind::Swap, Seen::OnWord { found, .. }, _) if found == Some(0) => Round::Last,
        _ => Round::Change,
    }
}

/// The acquires of a run, and how many of each thread have swapped themselves in. Empty for another
/// lock.
#[derive(Drop)]
pub struct Acquires {
    begun: [usize; 64],
    instances: Vec<Vec<Instance>>,
    chains: Chains,
}

impl Acquires {
    /// None has begun yet.
    pub fn new(alloc: Global, order: &Order) -> Result<Acquires, AllocError> {
        let mut instances = Vec::new(alloc);
        for log in order.logs() {
            instances.push(instances_of(alloc, order.header().kind(), log.moves())?)?;
        }
        let chains = Chains::new(alloc, order, &mut instances)?;
        Ok(Acquires {
            begun: [0; 64],
            instances,
            chains,
        })
    }

    // The acquire that a thread is in.
    fn instance(&self, t: usize) -> Option<&Instance> {
        let last = self.begun.get(t)?.checked_sub(1)?;
        self.instances.get(t)?.get(last)
    }

    // The acquire that the next swap of a thread begins.
    fn next(&self, t: usize) -> Option<&Instance> {
        self.instances.get(t)?.get(*self.begun.get(t)?)
    }

    // Whether the acquire that a thread is in has another successor, or none.
    fn has_other_successor(&self, before: usize, t: usize) -> bool {
        match self.instance(before).map(|instance| instance.after) {
            Some(Neighbor::Thread(after)) => after as usize != t,
            Some(Neighbor::Nobody) => true,
            Some(Neighbor::Unknown) | None => false,
        }
    }

    // Whether a release of a thread that is in the queue has still to find this in the tail.
    fn has_to_be_found(&self, order: &Order, tail: u64) -> bool {
        (0..order.header().threads()).any(|t| {
            self.instance(t as usize)
                .and_then(|instance| instance.failed)
                .is_some_and(|(found, at)| found == tail && order.placed(t) <= at)
        })
    }

    /// Whether a swap has to wait: for another acquire than the machine's tail names now, or for a
    /// release that finds that acquire in the tail.
    pub fn swap_waits(&self, order: &Order, t: usize, found: Option<u64>) -> bool {
        let Some(next) = self.next(t) else {
            return false;
        };
        match found {
            Some(0) => next
                .chain
                .is_some_and(|chain| !self.chains.may_begin(chain, &self.begun)),
            Some(found) if found <= 64 => {
                let before = (found - 1) as usize;
                let last = self.begun[before].saturating_sub(1);
                self.has_other_successor(before, t)
                    || next
                        .predecessor
                        .is_some_and(|predecessor| predecessor != last)
                    || self.has_to_be_found(order, found)
            }
            _ => false,
        }
    }

    /// Whether a link has to wait: the thread that it is written to has still to find none.
    pub fn link_waits(&self, order: &Order, before: u8) -> bool {
        self.instance(before as usize)
            .is_some_and(|instance| order.placed(before) < instance.unlinked)
    }

    /// When a swap that finds nobody is proposed.
    pub fn round_of_swap(&self, t: usize) -> Round {
        match self.next(t).and_then(|next| self.chains.end(next.chain?)) {
            Some(End::CutOff) => Round::CutOff,
            Some(End::Never) => Round::Endless,
            Some(End::Seen) | None => Round::Last,
        }
    }

    /// A swap of the thread is placed.
    pub fn begin(&mut self, t: usize) {
        if let Some(begun) = self.begun.get_mut(t) {
            *begun = begun.saturating_add(1);
        }
    }

    /// The word of a link that may be written from now on: the thread's last look that finds none
    /// is placed.
    pub fn awaited_link(&self, order: &Order, t: u8) -> Option<usize> {
        let unlinked = self.instance(t as usize)?.unlinked;
        if unlinked == 0 || order.placed(t) != unlinked {
            return None;
        }
        operation_of(LockKind::Mcs, 64, t, Phase::AwaitLink).map(|look| look.word())
    }
}
