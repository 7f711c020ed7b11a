//! The search for the order of a run's logs, what is wrong with logs for which no order is looked
//! for, and how the job ends by it.
//!
//! A run hangs if each thread that has not ended polls, and would poll on. The logs of threads that
//! run freely are not saved at one moment. So here the next poll of such a thread has to fail as
//! well, by the lock after all steps.

ghost use Rattle.std.specs.Prelude.{◌≡◌, ◌↔◌, IfOk, IfSome, IsSome};
ghost use Rattle.lk_order.specs.Runs.{IsOneRun};
ghost use Rattle.lk_jobs.specs.Orders.{IsHung, IsSearch, ending_of_bad, ending_of_search};
ghost use Rattle.lk_jobs.specs.Orders.{ending_of_sought};

use lk_order::{Found, Log, LogFault, Order, find_order};
use lk_text::blame::may_go_on as thread_may_go_on;
use lk_text::course::{Course, Fate};
use lk_text::report::{Code, Details, Ending};
use lk_trace::{Checker, Event};
use std::alloc::{AllocError, Global};
use std::fmt::InlineText;

/// A fault of a log, or of the logs together.
#[derive(Clone, Copy, PartialEq, Eq, Debug)]
pub enum BadLog {
    /// It could not be opened or read.
    Unread,
    Fault(LogFault),
    /// It is of another lock than the first one.
    OtherLock,
    /// This thread's log is of another run than the first one.
    OtherRun(u8),
    /// It is a second log of this thread.
    SecondLog(u8),
    /// There is no log of this thread.
    Missing(u8),
}

impl BadLog {
    /// The end of the job.
    pub fn ending(self) -> Ending
        ensures { result ≡ ending_of_bad self }
    {
        match self {
            BadLog::Unread => Ending::Unread,
            _ => Ending::Faulty,
        }
    }

    /// Its name for programs: of a fault the one that its sentence has in brackets. Memory that was
    /// refused is no fault of a log.
    pub fn code(self) -> &'static str {
        match self {
            BadLog::Unread => "Unread",
            BadLog::Fault(LogFault::NoHeader) => "NoHeader",
            BadLog::Fault(LogFault::BadHeader) => "BadHeader",
            BadLog::Fault(LogFault::BadMove | LogFault::AfterTheEnd) => "BadLine",
            BadLog::Fault(LogFault::TooLong | LogFault::OutOfMemory) => "TooLong",
            BadLog::OtherLock => "OtherLock",
            BadLog::OtherRun(_) => "OtherRun",
            BadLog::SecondLog(_) => "SecondLog",
            BadLog::Missing(_) => "NoLog",
        }
    }

    /// Its name, and the thread of the run that it is about.
    pub fn details(self) -> Details {
        let mut details = Details::new(Code::Named(InlineText::of(self.code())));
        match self {
            BadLog::OtherRun(thread) | BadLog::SecondLog(thread) | BadLog::Missing(thread) => {
                details.thread = Some(thread);
            }
            _ => {}
        }
        details
    }
}

/// The result of a search.
#[derive(Drop)]
pub struct Search {
    pub found: Found,
    /// How far the threads came, if the run hangs.
    pub hung: Option<Course>,
}

impl Search {
    /// The end of the job.
    pub fn ending(&self) -> Ending
        ensures { result ≡ ending_of_search self.now }
    {
        match (self.found.ending, &self.hung) {
            (lk_order::Ending::Stuck(_), _) => Ending::Refused,
            (_, Some(_)) => Ending::Hangs,
            (_, None) => Ending::Accepted,
        }
    }
}

/// The answer about the logs of a run: an order was looked for, or something is wrong with them.
pub type Sought = Result<Search, BadLog>;

/// The end of a job with this answer.
pub fn ending_of(sought: &Sought) -> Ending
    ensures { result ≡ ending_of_sought sought.now }
{
    match sought {
        Ok(search) => search.ending(),
        Err(bad) => bad.ending(),
    }
}

// Makes the steps of an order again, and notes how far each thread comes.
fn course_of(order: &Order) -> Course {
    let mut course = Course::new();
    let header = order.header();
    let mut checker = Checker::new(header);
    let mut at = [0usize; 256];
    for k in 0..order.len() {
        let Some(line) = order.line(k) else {
            break;
        };
        let t = line.thread as usize;
        let place = at[t];
        at[t] = place.saturating_add(1);
        let log = order.logs().get(t);
        let number = log.and_then(|log| log.line_of(place)).unwrap_or(0);
        if let Ok(made) = checker.step(line) {
            let event = Event::Made(line, made);
            course.take(u64::from(number), b"".as_slice(), &event);
        }
    }
    course
}

// How far the threads came, if the run hangs. `unended` has the threads whose logs say that they
// have not ended.
fn hung_course(order: &Order, unended: &[bool]) -> Option<Course>
    ensures { IfSome result (IsHung order.now) }
{
    if !unended.contains(&true) {
        return None;
    }
    let mut course = course_of(order);
    let threads = order.header().threads();
    for t in 0..threads {
        let is_open = unended.get(t as usize).copied().unwrap_or(false);
        let log = order.logs().get(t as usize)?;
        let is_whole = is_open || log.dropped() == Some(0);
        if !is_whole || order.next(t).is_some() {
            return None;
        }
        course.end(t, !is_open);
    }
    let hangs = course.hangs(threads) && !may_go_on(order, &course);
    hangs.then_some(course)
}

// Whether a thread that has not ended would find what it polls for.
fn may_go_on(order: &Order, course: &Course) -> bool {
    let lock = order.checker().lock();
    (0..order.header().threads()).any(|thread| {
        course.fate(thread) == Fate::Hangs && thread_may_go_on(lock, thread)
    })
}

/// Looks for the order of a run's logs. `unended` has the threads whose logs say that they have not
/// ended. None is answered if the logs are not those of one run.
pub fn search_logs(
    alloc: Global,
    logs: Vec<Log>,
    unended: &[bool],
) -> Result<Option<Search>, AllocError>
    ensures one_run { IfOk result (λ search. IsSome search ↔ IsOneRun logs.items) }
    ensures logs { IfOk result (λ search. IfSome search (λ s. s.found.order.logs ≡ logs.items)) }
    ensures search { IfOk result (λ search. IfSome search IsSearch) }
{
    let Some(found) = find_order(alloc, logs)? else {
        return Ok(None);
    };
    let hung = match found.ending {
        lk_order::Ending::Stuck(_) => None,
        _ => hung_course(&found.order, unended),
    };
    Ok(Some(Search { found, hung }))
}
