//! Threads: many texts at once, a counter whose numbers are drawn once each, a running ticket lock.

ghost use Rattle.std.specs.Prelude.{◌≡◌, ◌≤◌, ◌<◌, ◌+◌, ◌^◌, length, map, true, IfOk};
ghost use Rattle.lk_replay.specs.Report.{report_text};
ghost use Rattle.lk_workers.specs.Batch.{batch_text_of};
ghost use Rattle.lk_workers.specs.Seats.{AreApart};
ghost use Rattle.lk_workers.specs.declared.live.LivePhase.TheVariants.{Idle};

use lk_workers::{
    DrawSeat, Draws, Gate, LivePhase, LiveSeat, LiveTicket, OpenGate, batch_text, replay_many,
};
use std::alloc::{AllocError, Global};
use std::sync::atomic::{AtomicU32, Ordering};
use std::thread::Threads;

/// Counts the texts that workers have begun, and those that they have ended.
#[derive(Drop)]
pub struct Progress {
    begun: AtomicU32,
    ended: AtomicU32,
}

impl Progress {
    /// Begins at 0 texts.
    pub fn new() -> Progress {
        Progress {
            begun: AtomicU32::new(0),
            ended: AtomicU32::new(0),
        }
    }

    /// Returns how many texts are begun, and how many are ended.
    pub fn counts(&self) -> (u32, u32) {
        (
            self.begun.load(Ordering::SeqCst),
            self.ended.load(Ordering::SeqCst),
        )
    }
}

impl Gate for Progress {
    fn begin(&self, _number: u32) {
        self.begun.fetch_add(1, Ordering::SeqCst);
    }

    fn end(&self, _number: u32) {
        self.ended.fetch_add(1, Ordering::SeqCst);
    }
}

// Takes what threads may share.
fn shared<T: Sync>(_value: &T) {}

/// Replays the texts by 1 to 8 workers, who call any gate, and returns their reports in order.
pub fn reports_of<G: Gate, R: Threads + Sync>(
    rt: &R,
    alloc: Global,
    texts: &[Vec<u8>],
    workers: u8,
    gate: &G,
) -> Result<Vec<Vec<u8>>, AllocError>
    requires workers { (1 ≤ workers) × (workers ≤ 8) }
    requires texts { length texts.now ≤ 65536 }
    ensures { IfOk result (λ reports. length reports.items ≡ length texts.now) }
{
    shared(gate);
    replay_many(rt, alloc, texts, workers, gate)
}

/// Returns the reports of the texts as one text, by eight workers.
pub fn batch<R: Threads + Sync>(
    rt: &R,
    alloc: Global,
    texts: &[Vec<u8>],
) -> Result<Vec<u8>, AllocError>
    requires { length texts.now ≤ 65536 }
    ensures { IfOk result (λ text. text.items
        ≡ batch_text_of (map (λ t. report_text t.items) texts.now)) }
{
    let reports: Vec<Vec<u8>> = replay_many(rt, alloc, texts, 8, &OpenGate)?;
    batch_text(alloc, &reports)
}

/// Draws a number by each of two seats, of which one has this share of the draws. Returns both
/// numbers, and how many draws are left.
pub fn draw_two(alloc: Global, draws: u64, share: u64) -> Result<(u64, u64, u64), AllocError>
    requires draws { draws ≤ 2 ^ 40 }
    requires share { (0 < share) × (share < draws) }
    ensures { IfOk result (λ drawn. drawn.2 + 2 ≡ draws) }
{
    let (counter, mut seat): (Draws, DrawSeat) = Draws::open(alloc, draws)?;
    let mut other: DrawSeat = counter.split(&mut seat, share);
    let (first, second): (u64, u64) = (counter.draw(&mut other), counter.draw(&mut seat));
    counter.join(&mut seat, other);
    let left: u64 = seat.left();
    let _word: u64 = counter.close(seat);
    Ok((first, second, left))
}

/// Takes a ticket, and passes the lock on if the ticket is served at once.
pub fn try_turn(lock: &LiveTicket, seat: &mut LiveSeat) -> bool
    requires own { seat.old.table ≡ lock.now }
    requires idle { (seat.old.state.phase ≡ Idle) × (0 < seat.old.state.left) }
    ensures own { seat.new.table ≡ lock.now }
    ensures idle { result ≡ true → seat.new.state.phase ≡ Idle }
{
    let _ticket: u64 = lock.take(seat);
    let is_served: bool = lock.look(seat);
    if is_served {
        lock.read_serving(seat);
        lock.pass(seat);
    }
    is_served
}

/// Opens a lock with two seats, which may take this many tickets each.
pub fn two_seats(alloc: Global, takes: u64) -> Result<(LiveTicket, LiveSeat, LiveSeat), AllocError>
    requires { takes ≤ 2 ^ 39 }
    ensures { IfOk result (λ r. (r.1.table ≡ r.0) × (r.2.table ≡ r.0)
        × (r.1.state.left ≡ takes) × (r.2.state.left ≡ takes)) }
{
    let (lock, mut first): (LiveTicket, LiveSeat) = LiveTicket::open(alloc, 2 * takes)?;
    let second: LiveSeat = lock.split(&mut first, takes);
    Ok((lock, first, second))
}

/// Compares two seats of a lock: not both are inside, and their tickets differ.
pub fn compared(lock: &LiveTicket, first: &mut LiveSeat, second: LiveSeat) -> LiveSeat
    requires { (first.old.table ≡ lock.now) × (second.table ≡ lock.now) }
    ensures own { (first.new.table ≡ lock.now) × (result.table ≡ lock.now) }
    ensures apart { AreApart first.new.state result.state }
{
    lock.apart(first, second)
}

/// Ends a lock with its two seats. Returns the next ticket and the one that is served.
pub fn end(lock: LiveTicket, mut first: LiveSeat, second: LiveSeat) -> (u64, u64)
    requires own { (first.table ≡ lock) × (second.table ≡ lock) }
    requires idle { (first.state.phase ≡ Idle) × (second.state.phase ≡ Idle) }
    ensures { result.1 ≤ result.0 }
{
    lock.join(&mut first, second);
    lock.close(first)
}

/// Returns what a seat knows: the place in its call, its ticket, what it may take and has taken,
/// and the last ticket that it saw served.
pub fn knowledge(seat: &LiveSeat) -> (LivePhase, Option<u64>, u64, u64, u64)
    ensures { result.0 ≡ seat.now.state.phase }
{
    (
        seat.phase(),
        seat.ticket(),
        seat.left(),
        seat.taken(),
        seat.seen(),
    )
}
