//! The faults that end the program early, each with its line and its status.

ghost use Rattle.std.specs.Prelude.{◌≡◌};
ghost use Rattle.lockreplay.specs.Faults.{fault_from, fault_status, fault_message};

use itoa::Buffer;
use lk_lines::Status;
use lk_replay::RunFault;
use thiserror::Error;

/// A fault for which the program gives no report. `Display` writes the line for standard error,
/// without its end: the text that `text` gives, and a file's number.
#[derive(Clone, Copy, PartialEq, Eq, Debug, Drop, Error)]
#[error("{}", self.text())]
pub enum ProgramFault {
    /// Standard input failed.
    Input,
    /// Standard output failed, or took nothing. Some of the bytes may be written.
    Output,
    /// A request for memory was refused.
    Memory,
    /// A batch of more than 65,536 files.
    TooManyFiles,
    /// The file of this number, from 1, cannot be opened or read.
    #[error("{}{}", self.text(), Buffer::new().format(*.0))]
    File(u32),
}

impl ProgramFault {
    /// The text of its line, before a file's number. It has a contract; the code that `thiserror`
    /// derives has none.
    pub fn text(&self) -> &'static str
        ensures { result.now ≡ fault_message self.now }
    {
        match self {
            ProgramFault::Input => "lockreplay: cannot read standard input",
            ProgramFault::Output => "lockreplay: cannot write",
            ProgramFault::Memory => "lockreplay: out of memory",
            ProgramFault::TooManyFiles => "lockreplay: too many files",
            ProgramFault::File(_) => "lockreplay: cannot read file ",
        }
    }

    /// The status that the program ends with: 2 if the arguments name too many files, else 3.
    pub fn status(&self) -> u8
        ensures { result ≡ fault_status self.now }
    {
        let status = match self {
            ProgramFault::TooManyFiles => Status::Misused,
            _ => Status::Failed,
        };
        status as u8
    }
}

/// A fault of a run on standard input and output.
impl From<RunFault> for ProgramFault {
    ghost from_gives = { λ fault e. e ≡ fault_from fault };

    fn from(fault: RunFault) -> ProgramFault {
        match fault {
            RunFault::Read => ProgramFault::Input,
            RunFault::Write => ProgramFault::Output,
            RunFault::OutOfMemory => ProgramFault::Memory,
        }
    }
}
