//! The answers of draws, the running lock and batches if memory is refused.

ghost use Rattle.std.specs.Prelude.{◌≤◌, length};

use crate::batches::{Counts, FIVE, REPORTS, texts_of};
use crate::holding::holds;
use crate::refusing::{refuse, was_refused};
use lk_workers::{Draws, LiveTicket, batch_text, replay_many};
use std::alloc::{AllocError, Global};
use std::process::Abort;
use std::thread::Threads;

pub fn open_draws(rt: &impl Abort, alloc: Global, number: usize) -> bool {
    refuse(alloc, number);
    let answer = Draws::open(alloc, 3);
    let refused = was_refused(alloc);
    let is_right = match answer {
        Ok((draws, seat)) => seat.left() == 3 && draws.close(seat) == 0 && !refused,
        Err(_) => refused,
    };
    holds(rt, is_right, "draws");
    refused
}

pub fn open_lock(rt: &impl Abort, alloc: Global, number: usize) -> bool {
    refuse(alloc, number);
    let answer = LiveTicket::open(alloc, 5);
    let refused = was_refused(alloc);
    let is_right = match answer {
        Ok((lock, seat)) => seat.left() == 5 && lock.close(seat) == (0, 0) && !refused,
        Err(_) => refused,
    };
    holds(rt, is_right, "a running lock");
    refused
}

fn batch_of_five<R: Threads + Sync>(
    rt: &R,
    alloc: Global,
    texts: &[Vec<u8>],
    gate: &Counts,
) -> Result<Vec<u8>, AllocError>
    requires { length texts.now ≤ 65536 }
{
    let reports = replay_many(rt, alloc, texts, 8, gate)?;
    batch_text(alloc, &reports)
}

// After either answer all workers have ended.
fn is_due(answer: &Result<Vec<u8>, AllocError>, gate: &Counts, refused: bool) -> bool {
    match answer {
        Ok(text) => text.as_slice() == REPORTS.as_bytes() && gate.agree(Some(1)),
        Err(_) => refused && gate.agree(None),
    }
}

// Whether the batch is as it should be, with this request refused, and whether one was.
fn is_batched<R: Threads + Sync>(
    rt: &R,
    alloc: Global,
    number: usize,
) -> Result<(bool, bool), AllocError> {
    let texts = texts_of(alloc, &FIVE)?;
    let gate = Counts::new(alloc, 5)?;
    refuse(alloc, number);
    let answer = batch_of_five(rt, alloc, &texts[..texts.len().min(5)], &gate);
    let refused = was_refused(alloc);
    Ok((is_due(&answer, &gate, refused), refused))
}

/// If the system has no memory for a thread, its work is done by another: so a refusal need not
/// show.
pub fn batch<R: Abort + Threads + Sync>(rt: &R, alloc: Global, number: usize) -> bool {
    let Ok((is_right, refused)) = is_batched(rt, alloc, number) else {
        panic!(rt; "there is memory")
    };
    holds(rt, is_right, "a batch");
    refused
}
