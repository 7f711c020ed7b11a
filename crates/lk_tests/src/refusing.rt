//! How a test has a request for memory refused. The refusals are real under the allocator of
//! tests/refuse, which the test command preloads in a second run; its head says how a test speaks
//! to it. With ample memory the same tests meet none.
//!
//! tests/lockreplay/test_memory.py refuses those of the built program, which says nothing to it.

use std::alloc::Global;
use std::process::Abort;

const HERE: usize = 99_999_998;

const ASK: usize = 99_999_999;

const ARM: usize = 100_000_000;

/// More than any of the calls makes.
pub const MOST_REQUESTS: usize = 10_000;

fn is_granted(alloc: Global, size: usize) -> bool {
    Vec::<u8>::with_capacity(alloc, size).is_ok()
}

/// Refuses the request of this number from here on, the first being 1.
pub fn refuse(alloc: Global, number: usize) {
    let _ = is_granted(alloc, ARM.saturating_add(number));
}

/// Whether a request was refused since then.
pub fn was_refused(alloc: Global) -> bool {
    !is_granted(alloc, ASK)
}

/// Whether this run is the one under that allocator.
pub fn is_refusing(alloc: Global) -> bool {
    !is_granted(alloc, HERE)
}

/// A call that met no refusal: under that allocator it is not the first, since the call asks for
/// memory.
pub fn met_none(rt: &impl Abort, alloc: Global, number: usize) {
    assert!(rt; number > 1 || !is_refusing(alloc), "no request was made");
}
