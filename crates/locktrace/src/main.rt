//! `locktrace`: checks traces of locks, explains them, puts the logs of a run's threads into one
//! order, and searches all runs of a lock.
//!
//! Reports, schedules and help go to standard output, every other line to standard error.
#![tactic(auto)]

mod command_line;
mod commands;
mod folders;
mod page;
mod patient;
mod searches;

use command_line::{Job, ParseFault, parse_words};
use folders::files_named;
use lk_checks::check::{CheckJob, check_files};
use lk_checks::cover::cover_traces;
use lk_checks::explain::explain_trace;
use lk_checks::schedule::write_schedule;
use lk_jobs::find::find_run;
use lk_jobs::order::{ending_of, order_logs};
use lk_jobs::sketch::lock_named;
use lk_jobs::space::count_space;
use lk_jobs::tour::write_tour;
use lk_jobs::why::explain_changes;
use lk_lines::Status;
use lk_text::report::worst;
use lk_text::{Failure, Outputs, Text};
use page::Page;
use patient::Patient;
use searches::{Aim, SearchJob};
use std::alloc::{AllocError, Global};
use std::env::{self, VarError};
use std::io::{ErrorKind, IsTerminal, Write};
use std::process::ExitCode;
use std::rt::Runtime;
use std::thread::Threads;

/// The message for arguments that are not UTF-8: the parser reads UTF-8 alone.
const FOREIGN_WORDS: &str = "locktrace: the words are not UTF-8 text\n";

// The job that the words after the program's name ask for.
fn job_given(rt: &HostRuntime) -> Result<Job, ParseFault> {
    let alloc = rt.alloc();
    let words = match env::args(rt) {
        Ok(words) => words,
        Err(error) if error.kind() == ErrorKind::OutOfMemory => {
            return Err(ParseFault::Memory(AllocError));
        }
        Err(_) => return Err(ParseFault::Usage(String::from_str(alloc, FOREIGN_WORDS)?)),
    };
    let words: Vec<String> = words.skip(1).collect(alloc)?;
    parse_words(alloc, &words)
}

// Searches a lock's space, and gives the status that the program ends with.
fn found_in<R: Runtime + Clone + Drop>(
    rt: &R,
    job: &SearchJob,
    said: &mut Outputs,
) -> Result<u8, Failure> {
    let (header, asked, aim) = match job {
        SearchJob::Find { source, asked } => return Ok(find_run(rt, source, *asked, said)? as u8),
        SearchJob::Cover { job, files } => {
            let named = files_named(rt, said.alloc, files, &mut said.errors)?;
            let status = cover_traces(rt, job, &named.files, said)?;
            return Ok(status.max(named.status as u8));
        }
        SearchJob::Lock { header, asked, aim } => (header, *asked, aim),
    };
    let header = match lock_named(header, said)? {
        Ok(header) => header,
        Err(status) => return Ok(status as u8),
    };
    let status = match aim {
        Aim::Space(format) => count_space(header, asked, *format, said)?,
        Aim::Why(runs) => explain_changes(header, asked, *runs, said)?,
        Aim::Tour(folder) => write_tour(rt, header, asked, folder, said)?,
    };
    Ok(status as u8)
}

// Whether a terminal is to have no colors: https://no-color.org, or one that can show none.
fn is_plain<R: Runtime>(rt: &R) -> Result<bool, AllocError> {
    match env::var(rt, "NO_COLOR") {
        Ok(asked) if !asked.is_empty() => return Ok(true),
        Err(VarError::NotUnicode) => return Ok(true),
        Err(VarError::OutOfMemory) => return Err(AllocError),
        _ => {}
    }
    match env::var(rt, "TERM") {
        Ok(terminal) => Ok(terminal.as_str() == "dumb"),
        Err(VarError::OutOfMemory) => Err(AllocError),
        Err(_) => Ok(false),
    }
}

// Checks traces, with colors if the job asks for them or is on a terminal that shows them.
fn check<R: Runtime + Threads + Sync + Clone + Drop, O: Write + IsTerminal>(
    rt: &R,
    job: &CheckJob,
    colored: Option<bool>,
    told: bool,
    output: &mut O,
    said: &mut Outputs,
) -> Result<u8, Failure>
where
    R::File: Send,
{
    let (alloc, errors) = (said.alloc, &mut said.errors);
    let named = files_named(rt, alloc, &job.files, errors)?;
    let colored = match colored {
        Some(colored) => colored,
        None => output.is_terminal() && !is_plain(rt)?,
    };
    let job = CheckJob {
        format: job.format,
        summary: job.summary,
        quiet: job.quiet,
        colored,
        workers: job.workers,
        files: named.files,
    };
    let told = told && !job.quiet;
    let endings = check_files(rt, alloc, &job, told, output, errors)?;
    Ok(worst(&endings).max(named.status as u8))
}

// Does a job, and gives the status that the program ends with. `told` if standard error is a
// terminal. A page is written with its trace, unless that cannot be read.
fn perform<R: Runtime + Threads + Sync + Clone + Drop, O: Write + IsTerminal>(
    rt: &R,
    job: &Job,
    told: bool,
    output: &mut O,
    said: &mut Outputs,
) -> Result<u8, Failure>
where
    R::File: Send,
{
    let (alloc, errors) = (said.alloc, &mut said.errors);
    let ending = match job {
        Job::Check(job, colored, None) => return check(rt, job, *colored, told, output, said),
        Job::Check(job, colored, Some(asked)) => {
            let Some(page) = Page::new(rt, alloc, asked, &job.files, errors)? else {
                return Ok(Status::Misused as u8);
            };
            let status = check(rt, job, *colored, told, output, said)?;
            if status <= Status::Refused as u8 {
                page.write(rt, alloc)?;
            }
            return Ok(status);
        }
        Job::Search(job) => {
            let status = found_in(rt, job, said)?;
            said.text.write_to(output)?;
            output.flush()?;
            return Ok(status);
        }
        Job::Schedule(file) => write_schedule(rt, alloc, file, output, errors)?,
        Job::Explain(job) => explain_trace(rt, alloc, job, output, errors)?,
        Job::Order(job) => ending_of(&order_logs(rt, alloc, job, told, output, errors)?),
    };
    Ok(ending.status())
}

// Writes to standard error. If that fails, nobody is left to be told.
fn tell(rt: &HostRuntime, errors: &Text) -> Result<(), Failure> {
    let _ = rt.stderr().write_all(errors.as_str()?.as_bytes());
    Ok(())
}

fn main(rt: HostRuntime) -> ExitCode {
    let mut said = Outputs::new(rt.alloc());
    let ended = match job_given(&rt) {
        Ok(job) => {
            let told = rt.stderr().is_terminal();
            perform(&rt, &job, told, &mut Patient::new(rt.stdout()), &mut said)
        }
        Err(ParseFault::Told(text)) => match Patient::new(rt.stdout()).write_all(text.as_bytes()) {
            Ok(()) => Ok(Status::Accepted as u8),
            Err(error) => Err(Failure::Output(error)),
        },
        Err(ParseFault::Memory(error)) => Err(Failure::Memory(error)),
        Err(fault) => {
            let _ = eprint!(rt; "{fault}");
            Ok(Status::Misused as u8)
        }
    };
    let status = match tell(&rt, &said.errors).and(ended) {
        Ok(status) => status,
        Err(failure) => {
            let _ = eprintln!(rt; "locktrace: {failure}");
            failure.status()
        }
    };
    ExitCode::from(status)
}
