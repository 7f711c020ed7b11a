//! The answer of the program to its arguments: bytes on standard output, and a status or a message
//! for standard error. The message is a value, so that a contract says exactly which one it is: no
//! contract can say whether a device takes bytes.

ghost use Rattle.std.specs.Prelude.{◌≡◌, OnOk};
ghost use Rattle.std.specs.Io.KnownBytes.{Appends};
ghost use Rattle.lockreplay.specs.Answers.{EndsProgram, message_bytes, message_status};
ghost use Rattle.lockreplay.specs.Jobs.{FitsJob};
ghost use Rattle.lockreplay.specs.declared.answers.Message.TheVariants.{Fault};

use crate::command_line::{Job, ParseFault};
use crate::faults::ProgramFault;
use crate::jobs::perform;
use itoa::Buffer;
use lk_lines::Status;
use lk_replay::send;
use std::alloc::Global;
use std::io::{self, Read, Write};
use std::rt::Files;
use std::thread::Threads;

/// The message on standard error. The program then ends with `status`.
#[derive(Debug, Drop)]
pub enum Message {
    /// The line of a fault.
    Fault(ProgramFault),
    /// The text of the command line's parser, for arguments that name no job.
    Usage(String),
}

impl From<ProgramFault> for Message {
    ghost from_gives = { λ fault message. message ≡ Fault fault };

    fn from(fault: ProgramFault) -> Message {
        Message::Fault(fault)
    }
}

impl Message {
    /// The status that the program ends with.
    pub fn status(&self) -> u8
        ensures { result ≡ message_status self.now }
    {
        match self {
            Message::Fault(fault) => fault.status(),
            Message::Usage(_) => Status::Misused as u8,
        }
    }

    /// Writes the message.
    ///
    /// # Errors
    ///
    /// The error of a write that failed. Some of the bytes may be written.
    pub fn write<E: Write>(&self, errors: &mut E) -> io::Result<()>
        ensures { OnOk result
            (Appends (E.contents errors.old) (E.contents errors.new) (message_bytes self.now)) }
    {
        let fault = match self {
            Message::Fault(fault) => fault,
            Message::Usage(text) => return errors.write_all(text.as_bytes()),
        };
        errors.write_all(fault.text().as_bytes())?;
        if let ProgramFault::File(number) = fault {
            errors.write_all(Buffer::new().format(*number).as_bytes())?;
        }
        errors.write_all(b"\n")
    }
}

/// Does the job that was asked for, and gives the status that the program ends with.
///
/// # Errors
///
/// The message for standard error. Some of the output may be written.
pub fn answer<R: Files + Threads + Sync, I: Read, O: Write>(
    rt: &R,
    alloc: Global,
    asked: Result<Job, ParseFault>,
    input: &mut I,
    output: &mut O,
) -> Result<u8, Message>
    requires { FitsJob asked }
    ensures { EndsProgram asked (I.remaining input.old) (O.contents output.old)
        (O.contents output.new) result }
{
    match asked {
        Ok(job) => Ok(perform(rt, alloc, &job, input, output)?),
        Err(ParseFault::Help(text)) => {
            send(output, text.as_bytes()).map_err(ProgramFault::from)?;
            Ok(Status::Accepted as u8)
        }
        Err(ParseFault::Usage(text)) => Err(Message::Usage(text)),
        Err(ParseFault::TooManyFiles) => Err(ProgramFault::TooManyFiles.into()),
        Err(ParseFault::OutOfMemory) => Err(ProgramFault::Memory.into()),
    }
}
