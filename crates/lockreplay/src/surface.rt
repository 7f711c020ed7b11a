//! Each public call of the program, as a caller writes it. Types are written out, and enums matched
//! with no wildcard, so that a call that changes its form or its name stops the compiler.

ghost use Rattle.std.specs.Prelude.{◌≡◌, ◌≤◌, [], true, IfOk};

use crate::command_line::{Job, ParseFault, parse_words};
use crate::faults::ProgramFault;
use crate::jobs::batch_status;
use std::alloc::{AllocError, Global};
use std::fmt::Debug;

/// Returns the workers and the files that arguments ask for. A single schedule has one worker, and
/// no file.
pub fn asked(alloc: Global, words: &[String]) -> Result<(u8, usize), ParseFault>
    ensures { IfOk result (λ asked. (1 ≤ asked.0) × (asked.0 ≤ 8) × (asked.1 ≤ 65536)) }
{
    match parse_words(alloc, words)? {
        Job::Replay => Ok((1, 0)),
        Job::Batch { workers, files } => Ok((workers, Vec::<String>::len(&files))),
    }
}

/// Returns the text of the parser that a fault has.
pub fn text_of(fault: ParseFault) -> Option<String> {
    match fault {
        ParseFault::Help(text) | ParseFault::Usage(text) => Some(text),
        ParseFault::TooManyFiles | ParseFault::OutOfMemory => None,
    }
}

// What an enum derives whose variants hold nothing or numbers.
fn is_plain<T: Clone + Copy + PartialEq + Eq + Debug>(_value: &T) {}

/// Writes the line of a fault, without its end, and returns its status, and the number of the file
/// that cannot be read, if that is the fault.
pub fn told(alloc: Global, fault: ProgramFault) -> Result<(String, u8, Option<u32>), AllocError>
    ensures { IfOk result (λ told. (2 ≤ told.1) × (told.1 ≤ 3)) }
{
    is_plain(&fault);
    let file: Option<u32> = match fault {
        ProgramFault::File(number) => Some(number),
        ProgramFault::Input | ProgramFault::Output => None,
        ProgramFault::Memory | ProgramFault::TooManyFiles => None,
    };
    Ok((format!(in alloc; "{fault}")?, fault.status(), file))
}

/// Returns whether each move of each report was accepted, as it is of no report.
pub fn is_whole(reports: &[Vec<u8>]) -> bool
    ensures { reports.now ≡ [] → result ≡ true }
{
    batch_status(reports) == 0_u8
}
