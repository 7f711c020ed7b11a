//! Rounds of one thread on the running lock, each step with what it found, as a log.

ghost use Rattle.std.specs.Prelude.{◌≡◌, ◌+◌, true, IfOk};
ghost use Rattle.lk_workers.specs.declared.live.LivePhase.TheVariants.{Idle, Waiting, Inside};
ghost use Rattle.lk_workers.specs.invariants.Running.{IsIdleOf};

use lk_order::{Log, LogReader};
use lk_workers::{LiveSeat, LiveTicket};
use std::alloc::{AllocError, Global};
use std::fmt::Write;
use std::sync::atomic::{AtomicU64, Ordering};
use std::thread;

/// How often a round polls before it gives up.
const TURNS: u64 = 100_000_000;

// Waits until the seat is inside. A look that finds what the last one found changes nothing and is
// not written down.
fn wait(lock: &LiveTicket, seat: &mut LiveSeat, log: &mut String) -> Result<bool, AllocError>
    requires { (seat.old.table ≡ lock.now) × (seat.old.state.phase ≡ Waiting) }
    ensures own { seat.new.table ≡ lock.now }
    ensures left { seat.new.state.left ≡ seat.old.state.left }
    ensures inside { IfOk result (λ came. came ≡ true → seat.new.state.phase ≡ Inside) }
{
    let mut last = None;
    for _ in 0..TURNS {
        let served = lock.look(seat);
        let found = seat.seen();
        if last != Some(found) {
            last = Some(found);
            writeln!(log, "read now_serving found {found}")?;
        }
        if served {
            return Ok(true);
        }
        thread::yield_now();
    }
    Ok(false)
}

// One round: the count grows by one, by a load and a store that only the lock keeps together. False
// if the turn never came.
fn round(
    lock: &LiveTicket,
    seat: &mut LiveSeat,
    count: &AtomicU64,
    log: &mut String,
) -> Result<bool, AllocError>
    requires { IsIdleOf lock.now 1 seat.old }
    ensures own { seat.new.table ≡ lock.now }
    ensures left { seat.new.state.left + 1 ≡ seat.old.state.left }
    ensures idle { IfOk result (λ came. came ≡ true → seat.new.state.phase ≡ Idle) }
{
    let ticket = lock.take(seat);
    write!(log, "acquire\nadd next_ticket found {ticket}\n")?;
    if !wait(lock, seat, log)? {
        return Ok(false);
    }
    let before = count.load(Ordering::SeqCst);
    count.store(before.wrapping_add(1), Ordering::SeqCst);
    lock.read_serving(seat);
    let serving = seat.seen();
    lock.pass(seat);
    write!(
        log,
        "release\nread now_serving found {serving}\nwrite now_serving\n"
    )?;
    Ok(true)
}

// The log that these lines are. None if it is none.
fn log_of(alloc: Global, text: &str) -> Option<Log> {
    let mut reader = LogReader::new(alloc);
    for line in text.lines() {
        reader.line(line.as_bytes(), true).ok()?;
    }
    reader.log().ok()
}

/// The log of a thread that makes this many rounds, or `None` if a turn never came.
pub fn recorded_rounds(
    alloc: Global,
    lock: &LiveTicket,
    mut seat: LiveSeat,
    count: &AtomicU64,
    thread: u8,
    rounds: u64,
) -> Result<Option<Log>, AllocError>
    requires { IsIdleOf lock.now rounds seat }
{
    let mut log = String::new(alloc);
    writeln!(log, "lock ticket threads 2 thread {thread}")?;
    for _ in 0..rounds {
        if !round(lock, &mut seat, count, &mut log)? {
            return Ok(None);
        }
    }
    log.push_str("dropped 0\n")?;
    Ok(log_of(alloc, &log))
}
