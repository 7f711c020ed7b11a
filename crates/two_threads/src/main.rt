//! From a real run to the model: two threads add to one count under the running ticket lock, each
//! writes down what its steps found, and `lk_order` puts the two logs into one order in which the
//! lock's machine makes each step and finds the same.
//!
//! A thread writes down the ticket that its take answered, and the `now_serving` that its looks
//! found. Nothing else passes between the threads and the order, and no clock is read.
//!
//! The program prints the same however the threads meet. The order itself differs from run to run.
#![tactic(auto)]

ghost use Rattle.lk_workers.specs.invariants.Running.{IsIdleOf};

mod rounds;

use lk_order::{Ending, Log, find_order};
use lk_workers::{LiveSeat, LiveTicket};
use rounds::recorded_rounds;
use std::alloc::{AllocError, Global};
use std::io;
use std::sync::atomic::{AtomicU64, Ordering};
use std::thread::{Threads, join};

/// How often each thread takes the lock.
const ROUNDS: u64 = 100;

// The logs of both threads, each with a seat of its own. `None` if a turn never came.
fn both<R: Threads + Sync>(
    rt: &R,
    alloc: Global,
    lock: &LiveTicket,
    count: &AtomicU64,
    first: LiveSeat,
    second: LiveSeat,
) -> Result<Option<(Log, Log)>, AllocError>
    requires { IsIdleOf lock.now ROUNDS first × IsIdleOf lock.now ROUNDS second }
{
    let (first, second) = join(
        rt,
        move || -> Result<Option<Log>, AllocError>
            requires { IsIdleOf lock.now ROUNDS first }
        { recorded_rounds(alloc, lock, first, count, 0, ROUNDS) },
        move || -> Result<Option<Log>, AllocError>
            requires { IsIdleOf lock.now ROUNDS second }
        { recorded_rounds(alloc, lock, second, count, 1, ROUNDS) },
    );
    Ok(first?.zip(second?))
}

// The verdict of the lock's machine on the two logs.
fn verdict(alloc: Global, first: Log, second: Log) -> Result<&'static str, AllocError> {
    let Some(found) = find_order(alloc, vec![in alloc; first, second]?)? else {
        return Ok("the logs are not of one run");
    };
    Ok(match found.ending {
        Ending::Whole => "the replay accepts every step",
        Ending::Cut => "a log was cut short",
        Ending::Stuck(_) => "the logs fit no order of the lock",
    })
}

fn main(rt: HostRuntime) -> io::Result<()> {
    let alloc = rt.alloc();
    let (lock, mut first) = LiveTicket::open(alloc, 2 * ROUNDS)?;
    let second = lock.split(&mut first, ROUNDS);
    let count = AtomicU64::new(0);
    let Some((first, second)) = both(&rt, alloc, &lock, &count, first, second)? else {
        return println!(rt; "a turn never came");
    };
    println!(rt; "the count is {}", count.load(Ordering::SeqCst))?;
    println!(rt; "{}", verdict(alloc, first, second)?)
}
