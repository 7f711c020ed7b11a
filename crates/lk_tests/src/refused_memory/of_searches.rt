//! The answers of a search of a small lock and of a tour of it if memory is refused.

ghost use Rattle.std.specs.Prelude.{◌≡◌, [], IfOk};
ghost use Rattle.lk_search.specs.Sketches.{Lines};

use crate::holding::holds;
use crate::refusing::{refuse, was_refused};
use lk_locks::{LockKind, Shape};
use lk_search::{Bounds, Heap, Rounds, SearchFault, Space, TourFault, tour};
use std::alloc::Global;
use std::process::Abort;

fn small_space(alloc: Global) -> Result<Space<'static, Heap>, SearchFault>
    ensures { IfOk result (λ space. space.bounds.goal ≡ Lines []) }
{
    // it has 41 states
    Space::explore(
        Heap::new(alloc)?,
        Shape::new(LockKind::Ticket, 2, 64),
        Bounds::new(Rounds::UpTo(1), &[]),
        41,
    )
}

// Whether the lock has its states and a tour. An error says whether memory ran out.
fn is_toured(alloc: Global) -> Result<bool, bool> {
    match small_space(alloc) {
        Ok(space) => match tour(alloc, &space) {
            Ok(runs) => Ok(space.states() == 41 && !runs.is_empty()),
            Err(fault) => Err(fault == TourFault::OutOfMemory),
        },
        Err(fault) => Err(fault == SearchFault::OutOfMemory),
    }
}

pub fn explore(rt: &impl Abort, alloc: Global, number: usize) -> bool {
    refuse(alloc, number);
    let answer = is_toured(alloc);
    let refused = was_refused(alloc);
    let is_right = match answer {
        Ok(is_whole) => is_whole,
        Err(is_memory) => refused && is_memory,
    };
    holds(rt, is_right, "a search");
    refused
}
