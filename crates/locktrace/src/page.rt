//! A page with a trace in it: one file, in which a browser shows the trace as the page shows one
//! that is opened there.

use base64::engine::general_purpose::STANDARD as BASE64;
use lk_text::{Failure, STANDARD, Text, Value, escaped};
use std::alloc::{AllocError, Global};
use std::fs::OpenOptions;
use std::io::{ErrorKind, Read, Write};
use std::path::Path;
use std::rt::{Files, Runtime};
use std::{env, fs, io};

/// A page that is to be written.
#[derive(Drop)]
pub struct PageJob {
    pub file: String,
    /// The page that takes the trace, if it is not the one that is installed.
    pub from: Option<String>,
}

// The place for a trace in a page: how it begins and ends, and the whole of an empty one.
const FRONT: &str = "<meta name=\"trace\" content=\"";

const BACK: &str = "\">";

const EMPTY: &str = "<meta name=\"trace\" content=\"\">";

/// The most bytes of a trace that the page opens from a file.
const MOST_BYTES: u64 = 4_194_304;

// No page with a trace is longer, so that no other file is read to its end.
const MOST_PAGE: u64 = 16_777_216;

const ONE: &str = "error: --page takes one trace\n";

const TWICE: &str = "error: --page takes the trace of a file, which is read twice\n";

const TOO_LONG: &str = "error: --page takes a trace of at most 4194304 bytes\n";

const NO_PAGE: &str =
    "error: there is no page at {path}; give one, as in --from page/lockreplay.html\n";

const NO_PLACE: &str = "error: {path} is no page of lockreplay without a trace\n";

// What is wrong with these files for a page, if anything is.
fn wrong_with<R: Files>(rt: &R, files: &[String]) -> Option<&'static str> {
    let [trace] = files else {
        return Some(ONE);
    };
    if trace.as_str() == STANDARD {
        return Some(TWICE);
    }
    match fs::metadata(rt, trace.as_str()) {
        Ok(found) if !found.is_file() => Some(TWICE),
        Ok(found) if found.len() > MOST_BYTES => Some(TOO_LONG),
        _ => None,
    }
}

// Where a program's page is installed: beside the folder `bin` that has the program.
fn page_beside(alloc: Global, program: Path<'_>) -> Result<String, AllocError> {
    let folder = program.parent().and_then(|bin| bin.parent());
    let prefix = folder.map_or("/usr", |folder| folder.as_str());
    format!(in alloc; "{prefix}/share/doc/lockreplay/page/lockreplay.html")
}

// Where the page is installed.
fn installed<R: Runtime>(rt: &R, alloc: Global) -> Result<String, AllocError> {
    match env::current_exe(rt) {
        Ok(program) => page_beside(alloc, program.as_path()),
        Err(error) if error.kind() == ErrorKind::OutOfMemory => Err(AllocError),
        Err(_) => page_beside(alloc, Path::new("/usr/bin/locktrace")),
    }
}

// The text of a page.
fn page_text<R: Files>(rt: &R, alloc: Global, path: &str) -> io::Result<String> {
    io::read_to_string(alloc, fs::open(rt, path)?.take(MOST_PAGE))
}

// The page that takes a trace, or nothing and why.
fn empty_page<R: Runtime>(
    rt: &R,
    alloc: Global,
    from: Option<&String>,
    errors: &mut Text,
) -> Result<Option<String>, Failure> {
    let path = match from {
        Some(path) => String::from_str(alloc, path.as_str())?,
        None => installed(rt, alloc)?,
    };
    let fault = match page_text(rt, alloc, path.as_str()) {
        Ok(text) if text.contains(EMPTY) => return Ok(Some(text)),
        Err(error) if error.kind() == ErrorKind::OutOfMemory => {
            return Err(Failure::Memory(AllocError));
        }
        Err(error) if error.kind() != ErrorKind::InvalidData => NO_PAGE,
        _ => NO_PLACE,
    };
    let path = escaped(alloc, path.as_str())?;
    errors.fill(fault, &[("path", Value::Text(path.as_str()))]);
    Ok(None)
}

// Whether a file is a page with a trace.
fn has_trace<R: Files>(rt: &R, alloc: Global, file: &str) -> Result<bool, AllocError> {
    match page_text(rt, alloc, file) {
        Ok(text) => Ok(text.contains(FRONT) && !text.contains(EMPTY)),
        Err(error) if error.kind() == ErrorKind::OutOfMemory => Err(AllocError),
        Err(_) => Ok(false),
    }
}

// Fails if something is in the place of a page, but for a page of an earlier check.
fn leave_other<R: Files>(rt: &R, alloc: Global, file: &str) -> Result<(), Failure> {
    let found = match fs::symlink_metadata(rt, file) {
        Err(error) if error.kind() == ErrorKind::NotFound => return Ok(()),
        found => Failure::unless(alloc, "read", file, found)?,
    };
    if found.is_file() && has_trace(rt, alloc, file)? {
        return Ok(());
    }
    Failure::in_place(alloc, file, "check")
}

/// A page, and the trace that it takes.
#[derive(Drop)]
pub struct Page<'a> {
    text: String,
    trace: &'a str,
    file: &'a str,
}

impl<'a> Page<'a> {
    /// The page of a job, or nothing and why: there is no page, or the files are not one trace.
    ///
    /// # Errors
    ///
    /// Another file is in the place of the page, or a request for memory was refused.
    pub fn new<R: Runtime>(
        rt: &R,
        alloc: Global,
        job: &'a PageJob,
        files: &'a [String],
        errors: &mut Text,
    ) -> Result<Option<Page<'a>>, Failure> {
        if let Some(wrong) = wrong_with(rt, files) {
            errors.put(wrong);
            return Ok(None);
        }
        let Some(text) = empty_page(rt, alloc, job.from.as_ref(), errors)? else {
            return Ok(None);
        };
        let file = job.file.as_str();
        leave_other(rt, alloc, file)?;
        let trace = files.first().map_or("", |trace| trace.as_str());
        Ok(Some(Page { text, trace, file }))
    }

    // The bytes of the trace.
    fn bytes<R: Files>(&self, rt: &R, alloc: Global) -> io::Result<Vec<u8>> {
        let mut bytes = Vec::new(alloc);
        fs::open(rt, self.trace)?
            .take(MOST_BYTES)
            .read_to_end(&mut bytes)?;
        Ok(bytes)
    }

    // The page with the bytes of its trace.
    fn filled<R: Files>(&self, rt: &R, alloc: Global) -> Result<String, Failure> {
        let bytes = Failure::unless(alloc, "read", self.trace, self.bytes(rt, alloc))?;
        let coded = BASE64.encode(alloc, &bytes)?;
        let (before, after) = self
            .text
            .split_once(EMPTY)
            .unwrap_or((self.text.as_str(), ""));
        Ok(format!(in alloc; "{before}{FRONT}{coded}{BACK}{after}")?)
    }

    /// Writes the page under another name, and gives it its own if all of it was written.
    ///
    /// # Errors
    ///
    /// A file could not be read or written, or a request for memory was refused.
    pub fn write<R: Files>(&self, rt: &R, alloc: Global) -> Result<(), Failure> {
        let text = self.filled(rt, alloc)?;
        let file = self.file;
        let draft = format!(in alloc; "{file}.new")?;
        let written = match write_anew(rt, draft.as_str(), text.as_str()) {
            Ok(()) => fs::rename(rt, draft.as_str(), file),
            Err(error) => {
                let _ = fs::remove_file(rt, draft.as_str());
                Err(error)
            }
        };
        Failure::unless(alloc, "write", file, written)
    }
}

// Writes a file in the place of one of this name; of a link, in the place of the link.
fn write_anew<R: Files>(rt: &R, name: &str, text: &str) -> io::Result<()> {
    let _ = fs::remove_file(rt, name);
    let mut options = OpenOptions::new();
    options.write(true).create_new(true);
    options.open(rt, name)?.write_all(text.as_bytes())
}
