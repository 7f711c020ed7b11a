//! A trace, followed on its lock to its end, or up to the first line that differs from the lock or
//! is not a trace's.

ghost use Rattle.std.specs.Prelude.{◌≡◌, IfOk, IfSome};
ghost use Rattle.lk_text.specs.Sources.{left_in};
ghost use Rattle.lk_text.specs.Summaries.{new_summary};
ghost use Rattle.lk_trace.specs.Traces.{after_text_line, event_of};
ghost use Rattle.lk_text.specs.Fates.{after_line, hangs_at};
ghost use Rattle.lk_text.specs.Verdicts.{EndsInput, IsOfText, SameVerdict, at_end, if_hangs};
ghost use Rattle.lk_text.specs.Verdicts.{noted_line, verdict_in};
ghost use Rattle.lk_text.specs.invariants.{Follows};

use crate::blame::{HANGS, put_blame, put_waits};
use crate::course::Course;
use crate::differences::{details_of, put_refused};
use crate::helps::{BEGIN, help_for};
use crate::phrases::put_standing;
use crate::report::{Code, Details, Ending, Notes, Report};
use crate::{Line, Lines, Summary, Text, open, put_wrong, wrong_in_header};
use lk_trace::{Checker, Difference, Event, TextFault, TraceLine, TraceReader, unreadable_line};
use std::alloc::{AllocError, Global};
use std::fmt::InlineText;
use std::io::{Error, ErrorKind, Read};
use std::rt::Runtime;

impl Report {
    fn new(alloc: Global) -> Report
        ensures { result.summary ≡ new_summary }
    {
        Report {
            ending: Ending::Accepted,
            line: 0,
            message: Text::new(alloc),
            details: Details::new(Code::Nothing),
            notes: Notes::new(alloc),
            help: Text::new(alloc),
            standing: Text::new(alloc),
            summary: Summary::new(),
        }
    }

    fn settle(&mut self, ending: Ending, line: u64)
        ensures { self.new ≡ record self.old { ending = ending; line = line } }
    {
        self.ending = ending;
        self.line = line;
    }

    // Says in what a line differs, and who holds and waits.
    fn explain(
        &mut self,
        checker: &Checker,
        course: &Course,
        names: &[String],
        line: TraceLine,
        difference: Difference,
    )
        ensures { SameVerdict self.old self.new }
    {
        let lock = checker.lock();
        self.details = details_of(lock, course, line, difference);
        self.message.put("refused: ");
        put_refused(&mut self.message, lock, names, line, difference);
        put_blame(&mut self.notes, lock, course, line, difference);
        self.help.put(help_for(checker, line, difference));
        put_standing(&mut self.standing, lock);
    }

    // Says who waits for what, and who holds.
    fn explain_hang(&mut self, checker: &Checker, course: &Course)
        ensures { SameVerdict self.old self.new }
    {
        let lock = checker.lock();
        self.details = Details::new(Code::Hangs);
        self.message.put(HANGS);
        put_waits(&mut self.notes, lock, course, &[]);
        put_standing(&mut self.standing, lock);
    }

    // Says why the text is no trace. What could be in the place of a line that cannot be read is
    // said in a note.
    fn fault(&mut self, fault: TextFault)
        ensures { SameVerdict self.old self.new }
    {
        self.details = Details::new(Code::Faulty(fault));
        self.message.put(InlineText::<64>::of(fault).as_str());
        if fault == TextFault::NoHeader {
            self.help.put(BEGIN);
        }
    }

    // Names the words that could be where a line cannot be read.
    fn explain_fault(&mut self, number: u64, line: &[u8], fault: TextFault)
        ensures { SameVerdict self.old self.new }
    {
        self.fault(fault);
        let wrong = match fault {
            TextFault::NoHeader => return,
            TextFault::BadLine => unreadable_line(line),
            _ => wrong_in_header(line),
        };
        let mut said = self.notes.text();
        put_wrong(&mut said, self.notes.alloc(), line, wrong);
        self.notes.put_in("", number, said);
    }

    // A line was read into the trace, and came to this. True if it is to be read on.
    fn take(
        &mut self,
        names: &[String],
        trace: &TraceReader,
        course: &Course,
        number: u64,
        line: &[u8],
        event: &Event,
    ) -> bool
        ensures verdict { Follows number event.now result self.new }
        ensures summary { self.new.summary ≡ noted_line self.old.summary trace.now event.now }
    {
        match *event {
            Event::Skipped | Event::Began(_) => true,
            Event::Made(line, made) => {
                if let Some(checker) = trace.checker() {
                    self.summary.note(checker.lock(), line, made);
                }
                true
            }
            Event::Differs(line, difference) => {
                self.settle(Ending::Refused, number);
                if let Some(checker) = trace.checker() {
                    self.explain(checker, course, names, line, difference);
                }
                false
            }
            Event::Fault(fault) => {
                self.settle(Ending::Faulty, number);
                self.explain_fault(number, line, fault);
                false
            }
        }
    }

    // The text has no more lines.
    fn end(&mut self, trace: &TraceReader, course: &Course, number: u64)
        ensures verdict { verdict_in self.new
            ≡ if_hangs (hangs_at trace.now course.now) (at_end number trace.now) }
        ensures summary { self.new.summary ≡ self.old.summary }
    {
        let Some(checker) = trace.checker() else {
            self.settle(Ending::Faulty, number);
            return self.fault(TextFault::NoHeader);
        };
        if course.hangs(checker.lock().machine().threads()) {
            self.settle(Ending::Hangs, 0);
            return self.explain_hang(checker, course);
        }
        self.settle(Ending::Accepted, 0);
    }
}

/// A report of an input that could not be opened or read.
pub fn unread(alloc: Global, error: &Error) -> Report
    ensures { result.ending ≡ Ending.Unread }
{
    let mut report = Report::new(alloc);
    report.message.put(InlineText::<256>::of(error).as_str());
    report.details = Details::new(Code::Unread);
    report.ending = Ending::Unread;
    report
}

/// A report of a line of this number that is none of a trace, or that a text ends there without a
/// header.
pub fn faulty(alloc: Global, number: u64, line: &[u8], fault: TextFault) -> Report
    ensures { result.ending ≡ Ending.Faulty }
{
    let mut report = Report::new(alloc);
    report.settle(Ending::Faulty, number);
    report.explain_fault(number, line, fault);
    report
}

/// Follows the trace in an input to its end, or up to the first line that ends it. Threads are
/// called by these names. `each` is called with the number of each line that is read, from 1, the
/// trace after it, and what it came to.
///
/// # Errors
///
/// Those of `each`, or a request for memory was refused. An input that fails is no error: that is
/// reported.
pub fn follow_input<R: Read + Drop, E: From<AllocError> + Drop, F>(
    alloc: Global,
    input: R,
    names: &[String],
    mut each: F,
) -> Result<Report, E>
where
    F: FnMut(u64, &TraceReader, Event) -> Result<(), E>,
    requires { (f : _) (number : _) (trace : _) (event : _) → F.pre f number trace event }
    ensures { IfOk result (λ report. IfSome (R.remaining input) (IsOfText report)) }
{
    let mut report = Report::new(alloc);
    let mut lines = Lines::new(alloc, input)?;
    let mut line = Line::new();
    let mut trace = TraceReader::new();
    let mut course = Course::new();
    for number in 1..u64::MAX {
        match lines.next_line(&mut line) {
            Ok(true) => {}
            Ok(false) => {
                report.end(&trace, &course, number);
                return Ok(report);
            }
            Err(error) => return Ok(unread(alloc, &error)),
        }
        let event = trace.line(line.bytes());
        course.take(number, line.bytes(), &event);
        let on = report.take(names, &trace, &course, number, line.bytes(), &event);
        each(number, &trace, event)?;
        if !on {
            return Ok(report);
        }
    }
    Ok(unread(alloc, &Error::from(ErrorKind::FileTooLarge)))
}

/// Follows the trace in the file of this name, or in standard input.
///
/// # Errors
///
/// Those of `follow_input`. A file that cannot be opened is reported.
pub fn follow_file<R: Runtime, E: From<AllocError> + Drop, F>(
    rt: &R,
    alloc: Global,
    name: &str,
    names: &[String],
    each: F,
) -> Result<Report, E>
where
    F: FnMut(u64, &TraceReader, Event) -> Result<(), E>,
    requires { (f : _) (number : _) (trace : _) (event : _) → F.pre f number trace event }
    ensures { IfOk result
        (λ report. EndsInput (left_in R.File.remaining R.Reader.remaining) report.ending) }
{
    match open(rt, name) {
        Ok(input) => follow_input(alloc, input, names, each),
        Err(error) => Ok(unread(alloc, &error)),
    }
}
