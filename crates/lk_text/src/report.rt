//! The report on an input: how it ended, in words for a reader and in parts for programs.

ghost use Rattle.std.specs.Prelude.{◌≡◌, ◌++◌, ◌∷◌, [], true, None, Some};
ghost use Rattle.lk_text.specs.Filled.{sentence_with, texts_of};
ghost use Rattle.lk_text.specs.Notes.{IsSaid, Says};
ghost use Rattle.lk_text.specs.Verdicts.{greatest_status, status_of};

use crate::{Place, Summary, Text};
use lk_lines::{Status, move_text, outcome_text};
use lk_locks::{Move, Outcome};
use lk_trace::{Difference, TextFault, WordName};
use std::alloc::{AllocError, Global};
use std::fmt::InlineText;

/// How an input ended, by the statuses of the program: the greatest wins.
#[derive(Clone, Copy)]
pub enum Ending {
    /// The text is an accepted trace.
    Accepted,
    /// A line differs from the machine.
    Refused,
    /// It could not be opened or read.
    Unread,
    /// The text is no trace.
    Faulty,
    /// The text is an accepted trace, and its run hangs.
    Hangs,
}

impl Ending {
    /// The status of the program if this is the worst ending.
    pub fn status(self) -> u8
        ensures { result ≡ status_of self }
    {
        let status = match self {
            Ending::Accepted => Status::Accepted,
            Ending::Refused | Ending::Hangs => Status::Refused,
            Ending::Unread => Status::Failed,
            Ending::Faulty => Status::Faulty,
        };
        status as u8
    }

    /// Its name in JSON.
    pub fn text(self) -> &'static str {
        match self {
            Ending::Accepted => "accepted",
            Ending::Refused => "refused",
            Ending::Unread => "unread",
            Ending::Faulty => "faulty",
            Ending::Hangs => "hangs",
        }
    }
}

/// The greatest of the endings' statuses.
pub fn worst(endings: &[Ending]) -> u8
    ensures { result ≡ greatest_status endings.now }
{
    endings
        .iter()
        .fold(0, |worst, ending| ending.status().max(worst))
}

/// The end of an input, as programs name it.
#[derive(Clone, Copy)]
pub enum Code {
    /// Nothing did.
    Nothing,
    Differs(Difference),
    Faulty(TextFault),
    Unread,
    Hangs,
    /// The thing of this name is wrong.
    Named(InlineText<16>),
}

impl Code {
    /// Its name.
    pub fn text(&self) -> &str {
        match self {
            Code::Nothing => "",
            Code::Differs(difference) => difference.name(),
            Code::Faulty(fault) => fault.name(),
            Code::Unread => "Unread",
            Code::Hangs => "Hangs",
            Code::Named(name) => name.as_str(),
        }
    }
}

/// A value that was expected or found.
#[derive(Clone, Copy)]
pub enum Datum {
    Number(u64),
    Move(Move),
    Outcome(Outcome),
    /// Whether a compare-and-swap wrote.
    Wrote(bool),
    Word(WordName),
}

impl Datum {
    /// It as a text. None is longer than a number of 64 bits.
    pub fn shown(self) -> InlineText<40> {
        match self {
            Datum::Number(number) => InlineText::of(number),
            Datum::Move(action) => InlineText::of(move_text(action)),
            Datum::Outcome(outcome) => InlineText::of(outcome_text(outcome)),
            Datum::Wrote(wrote) => InlineText::of(if wrote { "done" } else { "failed" }),
            Datum::Word(word) => InlineText::of(word),
        }
    }
}

/// The end of an input, in parts: a code, and of a refusal the thread, its step, the word, and the
/// values expected and found.
#[derive(Clone, Copy)]
pub struct Details {
    pub code: Code,
    pub thread: Option<u8>,
    pub step: Option<Move>,
    pub word: Option<WordName>,
    pub expected: Option<Datum>,
    pub found: Option<Datum>,
}

impl Details {
    /// A code alone.
    pub fn new(code: Code) -> Details
        ensures code { result.code ≡ code }
        ensures thread { result.thread ≡ None }
    {
        Details {
            code,
            thread: None,
            step: None,
            word: None,
            expected: None,
            found: None,
        }
    }

    /// The word, as a value.
    pub(crate) fn word_found(&self) -> Option<Datum> {
        Some(Datum::Word(self.word?))
    }
}

/// A text about a line, from 1; 0 if it is about no line of its own.
#[derive(Drop)]
pub struct Note {
    /// The file that the line is in; empty for the one that the message is about.
    pub file: String,
    pub line: u64,
    pub text: Text,
}

/// Notes, in the order in which they are said.
#[derive(Drop)]
pub struct Notes {
    alloc: Global,
    notes: Vec<Note>,
    // false from the first note on for which memory was refused
    is_whole: bool,
}

impl Notes {
    /// Nothing is said.
    pub fn new(alloc: Global) -> Notes
        ensures none { result.notes.items ≡ [] }
        ensures whole { result.is_whole ≡ true }
    {
        Notes {
            alloc,
            notes: Vec::new(alloc),
            is_whole: true,
        }
    }

    /// Where the texts are kept.
    pub fn alloc(&self) -> Global {
        self.alloc
    }

    /// An empty text, to be filled.
    pub fn text(&self) -> Text
        ensures { result ≡ Some [] }
    {
        Text::new(self.alloc)
    }

    /// Says this text of a line: of the file of this name, or if that is empty of the one that the
    /// message is about.
    pub fn put_in(&mut self, file: &str, line: u64, text: Text)
        ensures { self.new.is_whole ≡ true → Says self.old.notes.items self.new.notes.items
            file.now line (λ said. said ≡ text) }
    {
        match String::from_str(self.alloc, file) {
            Ok(file) => self.push(Note { file, line, text }),
            Err(AllocError) => self.is_whole = false,
        }
    }

    // Says this.
    fn push(&mut self, note: Note)
        ensures { self.new.is_whole ≡ true
            → self.new.notes.items ≡ self.old.notes.items ++ note ∷ [] }
    {
        if self.notes.push(note).is_err() {
            self.is_whole = false;
        }
    }

    /// Says this sentence of such a line.
    pub fn say_in(&mut self, file: &str, line: u64, sentence: &str, places: &[Place<'_>])
        ensures { self.new.is_whole ≡ true → Says self.old.notes.items self.new.notes.items
            file.now line (IsSaid (sentence_with (texts_of places.now) sentence.now)) }
    {
        let mut text = self.text();
        text.fill(sentence, places);
        self.put_in(file, line, text);
    }

    /// Whether memory was refused for none of them.
    pub(crate) fn is_whole(&self) -> bool
        ensures { result ≡ self.now.is_whole }
    {
        self.is_whole
    }

    /// The notes, in order.
    pub fn as_slice(&self) -> &[Note]
        ensures { result.now ≡ self.now.notes.items }
    {
        self.notes.as_slice()
    }
}

/// The report on one input.
#[derive(Drop)]
pub struct Report {
    pub ending: Ending,
    /// The line that ended it, from 1; 0 if none did.
    pub line: u64,
    /// The message about that line, or about the input.
    pub message: Text,
    /// The same for programs.
    pub details: Details,
    /// Notes that help to see why, with the lines that they are about.
    pub notes: Notes,
    /// Advice; empty if none is known.
    pub help: Text,
    /// The holders and the queue at that line.
    pub standing: Text,
    pub summary: Summary,
}
