//! The program's arguments, and the job that they name.
//!
//! `clap` reads the arguments, and decides which to refuse and with which text. The limit on the
//! number of files is tried after it. The job of each plain line, `replay` and `batch --workers N
//! FILE...` with no option among the files, is proved; every other line is read as `clap` reads it.

ghost use Rattle.std.specs.Prelude.{◌≡◌, ℕ, ◌<◌, ◌≤◌, List, length, map, false, true, string_bytes};
ghost use Rattle.std.specs.Prelude.{IfOk, IsErr};
ghost use Rattle.std.specs.List.{list_all};
ghost use Rattle.clap.specs.Words.{app_of, found_of, kind_of, rows_of};
ghost use Rattle.clap.specs.declared.builder.command.Command.TheViews.{out-Command};
ghost use Rattle.lockreplay.specs.CommandLines.{AnswersBatch, AsksFor, Argument, IsUnfit};
ghost use Rattle.lockreplay.specs.CommandLines.{batch_line, is_plain, replay_line};
ghost use Rattle.lockreplay.specs.Commands.{batch_app, batch_rows, program_app};
ghost use Rattle.lockreplay.specs.Jobs.{FitsJob};
ghost use Rattle.lockreplay.specs.declared.command_line.ParseFault.TheVariants.{OutOfMemory};

use clap::error::ErrorKind;
use clap::{Arg, ArgAction, ArgMatches, Command, value_parser};
use std::alloc::{AllocError, AllocFailed, Global};
use thiserror::Error;

/// The most files of a batch.
pub const MOST_FILES: usize = 65_536;

/// The most workers of a batch.
pub const MOST_WORKERS: u8 = 8;

/// `clap` refuses such a batch already, but no contract of it says so of a subcommand.
const UNFIT_BATCH: &str = "error: a batch takes from 1 to 8 workers, and one file at least\n";

/// A job of the program.
#[derive(Debug, Drop)]
pub enum Job {
    /// Replay the schedule on standard input.
    Replay,
    /// Replay the schedule of each file, by this many workers.
    Batch { workers: u8, files: Vec<String> },
}

/// The reason for which there is no job.
#[derive(Debug, Drop, Error)]
pub enum ParseFault {
    /// Help was asked for. This is its text.
    #[error("{0}")]
    Help(String),
    /// The arguments name no job of the program. The text says why.
    #[error("{0}")]
    Usage(String),
    /// The arguments name more than 65,536 files.
    #[error("too many files")]
    TooManyFiles,
    /// A request for memory was refused.
    #[error("out of memory")]
    OutOfMemory,
}

impl From<AllocError> for ParseFault {
    ghost from_gives = { λ _ e. e ≡ OutOfMemory };

    fn from(_error: AllocError) -> ParseFault {
        ParseFault::OutOfMemory
    }
}

impl<T: Drop> From<AllocFailed<T>> for ParseFault {
    ghost from_gives = { λ _ e. e ≡ OutOfMemory };

    fn from(_error: AllocFailed<T>) -> ParseFault {
        ParseFault::OutOfMemory
    }
}

fn batch_command<'a>(alloc: Global) -> Result<Command<'a>, AllocError>
    ensures app { IfOk result (λ c. app_of c ≡ batch_app) }
    ensures own { IfOk result (λ c. (out-Command c).has_globals ≡ false) }
{
    let workers = Arg::new(alloc, "workers")
        .long("workers")
        .value_name("N")
        .help("How many workers share the files")
        .required(true)
        .action(ArgAction::Set)
        .value_parser(value_parser!(u8).range(1..=MOST_WORKERS as i64));
    let files = Arg::new(alloc, "files")
        .value_name("FILE")
        .help("The files, each with one schedule")
        .required(true)
        .num_args(1..)
        .action(ArgAction::Append);
    Command::new(alloc, "batch")
        .about("Replays the schedule of each file and writes the reports in order")
        .arg(workers)?
        .arg(files)
}

fn program_command<'a>(alloc: Global) -> Result<Command<'a>, AllocError>
    ensures { IfOk result (λ c. app_of c ≡ program_app) }
{
    let replay = Command::new(alloc, "replay").about(
        "Replays the schedule on standard input and writes its report",
    );
    Command::new(alloc, "lockreplay")
        .about("Replays schedules of queue and read-write locks, step by step")
        .bin_name("lockreplay")?
        .no_binary_name(true)
        .subcommand_required(true)
        .subcommand(replay)?
        .subcommand(batch_command(alloc)?)
}

/// Copies of the texts.
pub fn copies_of(alloc: Global, texts: &[&str]) -> Result<Vec<String>, AllocError>
    ensures { IfOk result (λ copies. map string_bytes copies.items ≡ map (λ t. t.now) texts.now) }
{
    let mut copies = Vec::new(alloc);
    for text in texts {
        copies.push(String::from_str(alloc, *text)?)?;
    }
    Ok(copies)
}

/// The batch of these files by this many workers. The limit on files is tried before anything is
/// copied.
fn batch_of(alloc: Global, workers: u8, files: &[&str]) -> Result<Job, ParseFault>
    ensures fits { FitsJob result }
    ensures plain { 1 ≤ workers → workers ≤ 8 → 0 < length files.now
        → AnswersBatch workers (map (λ f. f.now) files.now) result }
    ensures unfit { IsUnfit workers → IsErr result }
{
    if files.is_empty() || workers == 0 || workers > MOST_WORKERS {
        return Err(ParseFault::Usage(String::from_str(alloc, UNFIT_BATCH)?));
    }
    if files.len() > MOST_FILES {
        return Err(ParseFault::TooManyFiles);
    }
    let files = copies_of(alloc, files)?;
    Ok(Job::Batch { workers, files })
}

/// The batch that the parser found.
fn batch_given(alloc: Global, batch: &ArgMatches<'_>) -> Result<Job, ParseFault>
    ensures fits { FitsJob result }
    ensures plain { (workers : ℕ) → (files : List Argument)
        → rows_of (found_of batch.now) ≡ batch_rows workers files
        → 1 ≤ workers → workers ≤ 8 → 0 < length files → AnswersBatch workers files result }
    ensures unfit { (workers : ℕ) → (files : List Argument)
        → rows_of (found_of batch.now) ≡ batch_rows workers files → IsUnfit workers → IsErr result }
{
    let workers = batch.get_one::<u8>("workers").unwrap_or(0);
    let given = batch.get_strs("files").unwrap_or(&[]);
    batch_of(alloc, workers, given)
}

/// The program's fault for an error of the parser.
fn fault_of(alloc: Global, error: &clap::Error) -> ParseFault
    ensures { kind_of error.now ≡ ErrorKind.OutOfMemory → result ≡ ParseFault.OutOfMemory }
{
    match (error.kind(), error.to_string(alloc)) {
        (ErrorKind::OutOfMemory, _) | (_, Err(_)) => ParseFault::OutOfMemory,
        (ErrorKind::DisplayHelp, Ok(text)) => ParseFault::Help(text),
        (_, Ok(text)) => ParseFault::Usage(text),
    }
}

/// The job that the program's arguments name: `replay`, or `batch --workers N FILE...` with N from
/// 1 to 8 and from one to 65,536 files. The grammar is `clap`'s, with its texts.
///
/// If there are several faults, the parser's come first, and `TooManyFiles` last; `OutOfMemory` may
/// come in place of any answer.
pub fn parse_words(alloc: Global, words: &[String]) -> Result<Job, ParseFault>
    ensures fits { FitsJob result }
    ensures replay { map string_bytes words.now ≡ replay_line
        → AsksFor (λ job. job ≡ Job.Replay) result }
    ensures batch { (workers : ℕ) → (files : List Argument)
        → map string_bytes words.now ≡ batch_line workers files
        → 1 ≤ workers → workers ≤ 8 → 0 < length files → list_all is_plain files ≡ true
        → AnswersBatch workers files result }
    // 0 or 9 workers get no job, whatever the parser says of them
    ensures unfit { (workers : ℕ) → (files : List Argument)
        → map string_bytes words.now ≡ batch_line workers files
        → IsUnfit workers → 0 < length files → list_all is_plain files ≡ true → IsErr result }
{
    let command = program_command(alloc)?;
    let matches = match command.try_get_matches_from(words) {
        Ok(matches) => matches,
        Err(error) => return Err(fault_of(alloc, &error)),
    };
    match matches.subcommand_matches("batch") {
        Some(batch) => batch_given(alloc, batch),
        None => Ok(Job::Replay),
    }
}
