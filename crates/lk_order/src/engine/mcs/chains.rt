//! The chains of an MCS lock's run: from a swap that found nobody to a compare-and-swap that wrote.
//!
//! The m-th instance of x whose successor is y is the predecessor of the m-th instance of y whose
//! predecessor is x, since both logs are in order. So the instances fall into chains. A chain ends
//! before the next one begins, and a thread's instances come in its order: a chain may begin where
//! each of its threads has no earlier instance left but in the chain itself. A chain that does not
//! end comes last, since no later swap can find nobody; before it one whose end is cut off.

use super::instances::{Instance, Neighbor};
use crate::{MOST_THREADS, Order};
use std::alloc::{AllocError, Global};

const NONE: u32 = u32::MAX;

/// The end of a chain, as far as it is known.
#[derive(Clone, Copy)]
pub enum End {
    /// A compare-and-swap wrote.
    Seen,
    /// The log that may have it is cut short.
    CutOff,
    /// There is none: the log of the last thread is whole.
    Never,
}

/// The chains of a run.
#[derive(Drop)]
pub struct Chains {
    /// Of each chain and thread the first instance in it, or `NONE`.
    first: Vec<u32>,
    ends: Vec<End>,
    threads: usize,
}

fn at(instances: &mut [Vec<Instance>], thread: u8, instance: usize) -> Option<&mut Instance> {
    instances.get_mut(thread as usize)?.get_mut(instance)
}

fn is_cut(order: &Order, thread: u8) -> bool {
    let log = order.logs().get(thread as usize);
    log.is_some_and(|log| log.is_cut())
}

fn count_of(instances: &[Vec<Instance>], thread: u8) -> usize {
    instances.get(thread as usize).map_or(0, |row| row.len())
}

// The next instance of a thread from `from` on whose successor is `thread`.
fn next_after(row: &[Instance], from: usize, thread: u8) -> Option<usize> {
    let mut later = row.get(from..)?.iter();
    let ahead = later.position(|instance| instance.after == Neighbor::Thread(thread))?;
    Some(from.saturating_add(ahead))
}

// Matches the instances of thread y with those of its predecessors, in order.
fn match_thread(instances: &mut [Vec<Instance>], y: u8) {
    // how far the instances of each predecessor have been looked through for this thread
    let mut reached = [0usize; MOST_THREADS];
    for m in 0..count_of(instances, y) {
        let Some(Neighbor::Thread(x)) = at(instances, y, m).map(|instance| instance.before) else {
            continue;
        };
        let x = x as usize;
        let (Some(others), Some(from)) = (instances.get_mut(x), reached.get_mut(x)) else {
            continue;
        };
        let Some(k) = next_after(others, *from, y) else {
            *from = others.len();
            continue;
        };
        *from = k.saturating_add(1);
        if let Some(found) = others.get_mut(k) {
            found.successor = Some(m);
        }
        if let Some(found) = at(instances, y, m) {
            found.predecessor = Some(k);
        }
    }
}

// Matches the instances of each thread with those of its predecessors, in order.
fn match_all(instances: &mut [Vec<Instance>], threads: u8) {
    for y in 0..threads {
        match_thread(instances, y);
    }
}

// How many acquires of a list have swapped themselves in.
fn swapped(row: &[Instance]) -> usize {
    match row.last() {
        Some(last) if last.before == Neighbor::Unknown => row.len().saturating_sub(1),
        _ => row.len(),
    }
}

impl Chains {
    // An instance of the thread is in the chain that is added.
    fn note(&mut self, thread: u8, instance: usize) {
        let base = self.ends.len().saturating_mul(self.threads);
        if let Some(first) = self.first.get_mut(base.saturating_add(thread as usize)) {
            *first = (*first).min(instance.min(NONE as usize) as u32);
        }
    }

    // Goes along a chain from its first instance, and returns how it ends.
    fn follow(
        &mut self,
        order: &Order,
        instances: &mut [Vec<Instance>],
        first: (u8, usize),
    ) -> End {
        let (mut thread, mut instance) = first;
        // this ends, since no instance is met twice
        for _ in 0..u64::MAX {
            self.note(thread, instance);
            let Some(found) = at(instances, thread, instance) else {
                return End::Never;
            };
            found.chain = Some(self.ends.len());
            let (after, next) = (found.after, found.successor);
            let successor = match after {
                Neighbor::Thread(successor) => successor,
                Neighbor::Nobody => return End::Seen,
                Neighbor::Unknown if is_cut(order, thread) => return End::CutOff,
                Neighbor::Unknown => return End::Never,
            };
            let Some(next) = next else {
                // its acquire comes after all that its log has
                if let Some(row) = instances.get(successor as usize) {
                    self.note(successor, swapped(row));
                }
                return End::CutOff;
            };
            thread = successor;
            instance = next;
        }
        End::Never
    }

    // Adds the chains that begin with an instance of this thread.
    fn add_all(
        &mut self,
        order: &Order,
        instances: &mut [Vec<Instance>],
        thread: u8,
    ) -> Result<(), AllocError> {
        for instance in 0..count_of(instances, thread) {
            let found = at(instances, thread, instance);
            if found.is_some_and(|found| found.before == Neighbor::Nobody) {
                let room = self.first.len().saturating_add(self.threads);
                self.first.resize(room, NONE)?;
                let end = self.follow(order, instances, (thread, instance));
                self.ends.push(end)?;
            }
        }
        Ok(())
    }

    /// The chains of the order's instances, a list for each thread, in which matches and chains
    /// are noted.
    pub fn new(
        alloc: Global,
        order: &Order,
        instances: &mut [Vec<Instance>],
    ) -> Result<Chains, AllocError> {
        match_all(instances, order.header().threads());
        let mut chains = Chains {
            first: Vec::new(alloc),
            ends: Vec::new(alloc),
            threads: order.header().threads() as usize,
        };
        for thread in 0..order.header().threads() {
            chains.add_all(order, instances, thread)?;
        }
        Ok(chains)
    }

    /// The end of a chain.
    pub fn end(&self, chain: usize) -> Option<End> {
        self.ends.get(chain).copied()
    }

    /// Whether a chain may begin, when each thread has begun so many instances.
    pub fn may_begin(&self, chain: usize, begun: &[usize; 64]) -> bool {
        let base = chain.saturating_mul(self.threads);
        let row = self.first.get(base..base.saturating_add(self.threads));
        row.is_none_or(|row| {
            row.iter().zip(begun).all(|(first, begun)| *first == NONE || *first as usize <= *begun)
        })
    }
}
