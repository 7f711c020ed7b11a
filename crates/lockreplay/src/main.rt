//! `lockreplay`, the command line: one schedule from standard input, or many from files.
//!
//! Reports and help go to standard output, every other line to standard error. `main` hands its
//! devices to `answer`, whose contract says what goes where, and writes the message: by `?` out of
//! `main` a fault would be printed in Rust's form, and end the program with the status of a refused
//! schedule.
#![tactic(auto)]

ghost use Rattle.lockreplay.specs.Jobs.{FitsJob};

mod answers;
mod command_line;
mod faults;
mod jobs;
mod sending;
mod surface;

use answers::answer;
use command_line::{Job, ParseFault, parse_words};
use std::env;
use std::io::ErrorKind;
use std::process::ExitCode;

/// The message for arguments that are not UTF-8: the parser reads UTF-8 alone.
const FOREIGN_WORDS: &str = "lockreplay: the words are not UTF-8 text\n";

/// The job that the program's arguments name.
fn job_given(rt: &HostRuntime) -> Result<Job, ParseFault>
    ensures { FitsJob result }
{
    let alloc = rt.alloc();
    let words = match env::args(rt) {
        Ok(words) => words,
        Err(error) if error.kind() == ErrorKind::OutOfMemory => {
            return Err(ParseFault::OutOfMemory);
        }
        Err(_) => return Err(ParseFault::Usage(String::from_str(alloc, FOREIGN_WORDS)?)),
    };
    let words: Vec<String> = words.skip(1).collect(alloc)?;
    parse_words(alloc, &words)
}

fn main(rt: HostRuntime) -> ExitCode {
    let asked = job_given(&rt);
    let mut input = rt.stdin();
    let mut output = rt.stdout();
    let status = match answer(&rt, rt.alloc(), asked, &mut input, &mut output) {
        Ok(status) => status,
        Err(message) => {
            // If standard error fails, the status alone says how it ended.
            let _ = message.write(&mut rt.stderr());
            message.status()
        }
    };
    ExitCode::from(status)
}
