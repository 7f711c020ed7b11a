//! The reports of many texts, by workers that draw the texts' numbers from a shared counter.
//!
//! Each worker draws until its number is not below the count of texts. Its numbers rise, so it
//! draws once more at most than there are texts, and one such share for each worker is all the
//! draws there are. When all seats are joined again, the numbers below the word were drawn once
//! each. So each report has one place, and each place gets its report.

ghost use Rattle.std.specs.Prelude.{◌≡◌, ℕ, ◌+◌, ◌-◌, ◌*◌, ◌<◌, ◌≤◌, ◌++◌, length, map, All};
ghost use Rattle.std.specs.Prelude.{[], IfOk};
ghost use Rattle.std.specs.Thread.{IsSync};
ghost use Rattle.lk_replay.specs.Report.{report_text};
ghost use Rattle.lk_workers.specs.Drawing.{IsSeatOf, drawer};
ghost use Rattle.lk_workers.specs.invariants.Collected.{bytes_of, numbered_bytes, MayWork, IsDone};
ghost use Rattle.lk_workers.specs.invariants.Collected.{places_with};

use crate::draws::{DrawSeat, Draws};
use crate::gate::Gate;
use lk_replay::report_of;
use std::alloc::{AllocError, Global};
use std::thread::{Threads, join};

// A text's number and its report.
type Numbered = (usize, Vec<u8>);

// A seat that comes back, and the reports of the texts whose numbers it drew.
type Done = (DrawSeat, Vec<Numbered>);

// One worker: the reports of the texts whose numbers its seat draws.
fn work<G: Gate>(
    alloc: Global,
    draws: &Draws,
    texts: &[Vec<u8>],
    gate: &G,
    mut seat: DrawSeat,
) -> Result<Done, AllocError>
    requires { MayWork draws.now texts.now 1 seat }
    ensures { IfOk result (λ r. IsDone draws.now texts.now 1 r.0 r.1.items) }
{
    let mut reports = Vec::new(alloc);
    loop {
        let number = draws.draw(&mut seat);
        if number >= texts.len() as u64 {
            return Ok((seat, reports));
        }
        let number = number as usize;
        // No `?` may come between the gate's two calls.
        gate.begin(number as u32);
        let report = report_of(alloc, texts[number].as_slice());
        gate.end(number as u32);
        reports.push((number, report?))?;
    }
}

// Leaves the seat with the draws of `half` of its workers, and gives those of the others to another
// one.
fn deal(draws: &Draws, texts: &[Vec<u8>], seat: &mut DrawSeat, workers: u8, half: u8) -> DrawSeat
    requires own { MayWork draws.now texts.now workers seat.old }
    requires half { (1 ≤ half) × (half < workers) }
    ensures kept { MayWork draws.now texts.now half seat.new }
    ensures given { MayWork draws.now texts.now (workers - half) result }
{
    let share = texts.len() as u64 + 1;
    draws.split(seat, u64::from(workers - half) * share)
}

// The seat and the reports of two groups of workers, as one.
fn gather(draws: &Draws, front: Done, back: Done) -> Result<Done, AllocError>
    requires { IsSeatOf draws.now front.0 × IsSeatOf draws.now back.0 }
    ensures { IfOk result
        (λ r. (r.0 ≡ drawer draws.now (front.0.drawn ++ back.0.drawn) (front.0.left + back.0.left))
        × (r.1.items ≡ front.1.items ++ back.1.items)) }
{
    let (mut seat, mut reports) = front;
    let (other, mut more) = back;
    draws.join(&mut seat, other);
    reports.append(&mut more)?;
    Ok((seat, reports))
}

// Runs this many workers, in halves side by side. The values that they share are passed one by one:
// inside a recursion the kit's `join` proves nothing of a closure that holds them as one struct.
fn work_all<G: Gate, R: Threads + Sync>(
    rt: &R,
    alloc: Global,
    draws: &Draws,
    texts: &[Vec<u8>],
    gate: &G,
    mut seat: DrawSeat,
    workers: u8,
) -> Result<Done, AllocError>
    requires { MayWork draws.now texts.now workers seat }
    ensures { IfOk result (λ r. IsDone draws.now texts.now workers r.0 r.1.items) }
{
    if workers == 1 {
        return work(alloc, draws, texts, gate, seat);
    }
    let half = workers / 2;
    let rest = workers - half;
    let other = deal(draws, texts, &mut seat, workers, half);
    let (front, back) = join(
        rt,
        move || -> Result<Done, AllocError>
            requires { IsSync R.row × IsSync G.row × MayWork draws.now texts.now half seat }
            ensures { IfOk result (λ r. IsDone draws.entry.now texts.entry.now half r.0 r.1.items) }
        { work_all(rt, alloc, draws, texts, gate, seat, half) },
        move || -> Result<Done, AllocError>
            requires { IsSync R.row × IsSync G.row × MayWork draws.now texts.now rest other }
            ensures { IfOk result (λ r. IsDone draws.entry.now texts.entry.now rest r.0 r.1.items) }
        { work_all(rt, alloc, draws, texts, gate, other, rest) },
    );
    gather(draws, front?, back?)
}

// Puts the reports into the places of their texts.
fn place_all(
    alloc: Global,
    texts: &[Vec<u8>],
    reports: Vec<Numbered>,
) -> Result<Vec<Vec<u8>>, AllocError>
    requires { All (λ p. p.0 < length texts.now) reports.items }
    ensures { IfOk result (λ places. bytes_of places.items
        ≡ places_with (map (λ _. []) texts.now) (numbered_bytes reports.items)) }
{
    let mut places: Vec<_> = texts.iter().map(|_| Vec::new(alloc)).collect(alloc)?;
    for (number, report) in reports {
        places[number] = report;
    }
    Ok(places)
}

/// The reports of the texts, in the order of the texts, by this many workers side by side.
///
/// Before and after each text its worker calls the gate. Which worker replays which text is left
/// open.
///
/// # Errors
///
/// Memory was refused. The other workers go on to their end, all are joined, and their reports are
/// dropped.
pub fn replay_many<G: Gate, R: Threads + Sync>(
    rt: &R,
    alloc: Global,
    texts: &[Vec<u8>],
    workers: u8,
    gate: &G,
) -> Result<Vec<Vec<u8>>, AllocError>
    requires workers { (1 ≤ workers) × (workers ≤ 8) }
    requires texts { length texts.now ≤ 65536 }
    ensures { IfOk result
        (λ reports. map (λ r. r.items) reports.items ≡ map (λ t. report_text t.items) texts.now) }
{
    let share = texts.len() as u64 + 1;
    let (draws, seat) = Draws::open(alloc, u64::from(workers) * share)?;
    let (seat, reports) = work_all(rt, alloc, &draws, texts, gate, seat, workers)?;
    draws.close(seat);
    place_all(alloc, texts, reports)
}
