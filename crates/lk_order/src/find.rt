//! An order of all logs: the next thread is proposed, and what is placed is placed by the checker.

ghost use Rattle.std.specs.Prelude.{◌≡◌, ◌<◌, ◌↔◌, ℕ, None, Some, IfOk, IfSome, IsSome, IsTrue};
ghost use Rattle.std.specs.Prelude.{MatchOption, true, false};
ghost use Rattle.std.specs.List.{slice_get};
ghost use Rattle.lk_order.specs.Logs.{ThreadLog};
ghost use Rattle.lk_order.specs.Runs.{IsOneRun};
ghost use Rattle.lk_order.specs.Orders.{IsOrder, next_line};
ghost use Rattle.lk_order.specs.Endings.{EndsAs, EndsWhereCut, IsSuspect, IsWorst, doubt_of};

use crate::engine::{Engine, count_of};
use crate::{Log, Order, Placed};
use lk_trace::Difference;
use std::alloc::{AllocError, Global};

/// A step that cannot be placed: line `at` of the thread's log, counted from 0.
#[derive(Clone, Copy)]
pub struct Stuck {
    pub thread: u8,
    pub at: usize,
    /// Where it differs from the lock after the steps that are placed. None if it does not differ:
    /// then a step of another thread has to come first.
    pub difference: Option<Difference>,
}

/// The end of an order.
#[derive(Clone, Copy)]
pub enum Ending {
    /// All lines of all logs are placed, and no log was cut short.
    Whole,
    /// All lines of a log that was cut short are placed, and those of each other log up to the
    /// first step that needs a missing one.
    Cut,
    /// There is a step that cannot be placed.
    Stuck(Stuck),
}

/// An order that was found, and its ending.
#[derive(Drop)]
pub struct Found {
    pub order: Order,
    pub ending: Ending,
}

// How likely another step is to blame that cannot be placed: 0 if it is surely this one.
fn doubt(difference: Option<Difference>) -> u8
    ensures doubt { result ≡ doubt_of difference }
    ensures below { result < 4 }
{
    match difference {
        Some(
            Difference::Refused(_) | Difference::OtherWord { .. } | Difference::LeftOther { .. },
        ) => 0,
        Some(Difference::OtherOutcome { .. }) => 1,
        Some(
            Difference::FoundOther { .. }
            | Difference::WroteOther { .. }
            | Difference::CountNotAbove { .. },
        ) => 2,
        None => 3,
    }
}

// A step that cannot be placed, with its doubt and its section's count.
#[derive(Clone, Copy)]
struct Suspect {
    doubt: u8,
    count: u64,
    stuck: Stuck,
}

// The next step of a thread, if it has one.
fn suspect_of(order: &Order, thread: u8) -> Option<Suspect>
    ensures { MatchOption result (next_line order.now thread ≡ None) (IsSuspect order.now thread) }
{
    let line = order.next(thread)?;
    let difference = order.checker().difference(line);
    Some(Suspect {
        doubt: doubt(difference),
        count: count_of(line).unwrap_or(0),
        stuck: Stuck {
            thread,
            at: order.placed(thread),
            difference,
        },
    })
}

// The step that is most certainly wrong, if one is left: of the same doubt that of the lower count.
fn suspect_in(order: &Order) -> Option<Suspect>
    ensures suspect { IfSome result (λ s. IsSuspect order.now s.stuck.thread s) }
    ensures worst { IfSome result (λ s. IsWorst order.now order.now.header.threads s.stuck.thread) }
    ensures none { result ≡ None → (t : ℕ) → t < order.now.header.threads
        → next_line order.now t ≡ None }
{
    let mut worst: Option<Suspect> = None;
    for t in 0..order.header().threads() {
        let Some(suspect) = suspect_of(order, t) else {
            continue;
        };
        let Some(other) = worst else {
            worst = Some(suspect);
            continue;
        };
        if suspect.doubt < other.doubt
            || suspect.doubt == other.doubt && suspect.count < other.count
        {
            worst = Some(suspect);
        }
    }
    worst
}

// Whether a log is cut short and all of it is placed.
fn ends_where_cut(order: &Order) -> bool
    ensures order { IsOrder order.now }
    ensures cut { result ≡ true → EndsWhereCut order.now }
    ensures uncut { result ≡ false → (t : ℕ) (log : ThreadLog)
        → slice_get order.now.logs t ≡ Some log
        → next_line order.now t ≡ None → log.dropped ≡ Some 0 }
{
    for t in 0..order.header().threads() {
        if let Some(log) = order.logs().get(t as usize) {
            if log.is_cut() && order.next(t).is_none() {
                return true;
            }
        }
    }
    false
}

// How the order ends. A step that is certainly wrong is named also when a log is cut short.
fn ending_of(order: &Order) -> Ending
    ensures order { IsOrder order.now }
    ensures ends { EndsAs order.now result }
{
    let cut = ends_where_cut(order);
    let Some(suspect) = suspect_in(order) else {
        return if cut { Ending::Cut } else { Ending::Whole };
    };
    if cut && suspect.doubt > 0 {
        Ending::Cut
    } else {
        Ending::Stuck(suspect.stuck)
    }
}

// Places one line after another, as long as there is a thread to propose.
fn place_all(order: &mut Order, engine: &mut Engine) -> Result<(), AllocError>
    ensures { order.new.logs ≡ order.old.logs }
{
    for _ in 0..u64::MAX {
        let Some(t) = engine.choose(order) else {
            return Ok(());
        };
        match order.place(t)? {
            Placed::Made(_) => engine.placed(order, t),
            _ => engine.failed(t),
        }
    }
    Ok(())
}

/// Puts the logs of all threads of a run into one order. Log t is thread t's, all have one header,
/// and there is one of each thread; else none is answered.
///
/// # Errors
///
/// A request for memory was refused.
pub fn find_order(alloc: Global, logs: Vec<Log>) -> Result<Option<Found>, AllocError>
    ensures one_run { IfOk result (λ found. IsSome found ↔ IsOneRun logs.items) }
    ensures order { IfOk result (λ found. IfSome found (λ f. IsOrder f.order)) }
    ensures logs { IfOk result (λ found. IfSome found (λ f. f.order.logs ≡ logs.items)) }
    ensures ending { IfOk result (λ found. IfSome found (λ f. EndsAs f.order f.ending)) }
{
    let Some(mut order) = Order::new(alloc, logs)? else {
        return Ok(None);
    };
    let mut engine = Engine::new(alloc, &order)?;
    place_all(&mut order, &mut engine)?;
    let ending = ending_of(&order);
    Ok(Some(Found { order, ending }))
}
