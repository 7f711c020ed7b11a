//! The files that a command leaves in a folder. A list there names them, and its next run knows
//! them by it.
//!
//! Each file is a draft at first, `NAME.new`, and all get their names when all drafts are whole.
//! The list is the first of the drafts and gets its name last, so at each time the list and its
//! draft together name each file that is left: the next run goes on from there, wherever one was
//! ended. Until the first draft gets its name the files of an earlier run are as they were. No
//! other file is touched: one that has the place of a file, a draft or a list ends the run before
//! anything is written.

ghost use Rattle.std.specs.Prelude.{◌≡◌, true};
ghost use Rattle.std.specs.Char.{is_ascii_digit};
ghost use Rattle.std.specs.List.{list_all};
ghost use Rattle.lk_jobs.specs.FileNames.{IsOwnName, IsScheduleName};

use lk_text::Failure;
use std::alloc::{AllocError, Global};
use std::fmt::Write as _;
use std::fs::{Metadata, OpenOptions};
use std::io::{ErrorKind, Write};
use std::os::unix::fs::MetadataExt;
use std::rt::Files;
use std::{fs, io};

/// The name of the trace of an order.
pub const TRACE: &str = "run.trace";

/// How the names of an order's schedules begin.
pub const RUN: &str = "run-";

/// How the name of a schedule ends.
pub const ENDING: &str = ".schedule";

// How the name of a file ends up to its last byte.
const DRAFT: &str = ".new";

// The verbs that a failure has after `cannot`.
const READ: &str = "read";

const WRITE: &str = "write";

// Whether the text has digits alone.
fn are_digits(text: &[u8]) -> bool
    ensures { result ≡ list_all is_ascii_digit text.now }
{
    text.iter().all(|byte| byte.is_ascii_digit())
}

// Whether a tour gives a schedule such a name.
fn is_schedule_name(name: &[u8]) -> bool
    ensures { result ≡ true → IsScheduleName name.now }
{
    let (number, ending) = name.split_at(name.len().saturating_sub(ENDING.len()));
    ending == ENDING.as_bytes() && !number.is_empty() && are_digits(number)
}

// Whether a command gives a file such a name. It has no slash, so the file is one of the folder.
fn is_own_name(name: &[u8]) -> bool
    ensures { result ≡ true → IsOwnName name.now }
{
    if name == TRACE.as_bytes() {
        return true;
    }
    let (front, rest) = name.split_at(RUN.len().min(name.len()));
    if front == RUN.as_bytes() {
        is_schedule_name(rest)
    } else {
        is_schedule_name(name)
    }
}

// Whether a text is a list, which a run that was ended may have cut off in its first line.
fn is_list(text: &str) -> bool {
    let is_cut = !text.as_bytes().contains(&b'\n');
    text.lines()
        .next()
        .map_or(true, |name| is_cut || is_own_name(name.as_bytes()))
}

// What the system knows a file by, under all of its names: its device and its number there.
type FileId = (u64, u64);

// Adds a file that was found. One that a model of files made has no number.
fn put_id(ids: &mut Vec<FileId>, found: io::Result<Metadata>) -> Result<(), AllocError> {
    match found {
        Ok(found) if found.ino() > 0 => ids.push((found.dev(), found.ino()))?,
        _ => {}
    }
    Ok(())
}

/// A folder, and the command that writes into it.
#[derive(Drop)]
pub struct Folder<'a, R> {
    pub rt: &'a R,
    pub alloc: Global,
    pub path: &'a str,
    pub command: &'a str,
}

impl<R: Files> Folder<'_, R> {
    fn path_of(&self, name: &str) -> Result<String, AllocError> {
        let path = self.path;
        format!(in self.alloc; "{path}/{name}")
    }

    fn draft_of(&self, name: &str) -> Result<String, AllocError> {
        let path = self.path;
        format!(in self.alloc; "{path}/{name}{DRAFT}")
    }

    fn list_name(&self) -> Result<String, AllocError> {
        let command = self.command;
        format!(in self.alloc; "{command}.list")
    }

    fn list_draft(&self) -> Result<String, AllocError> {
        self.draft_of(self.list_name()?.as_str())
    }

    // Removes a file, if it is there; of a link, the link.
    fn remove(&self, path: &str) -> Result<(), Failure> {
        match fs::remove_file(self.rt, path) {
            Err(error) if error.kind() == ErrorKind::NotFound => Ok(()),
            removed => Failure::unless(self.alloc, WRITE, path, removed),
        }
    }

    // The text of the list of this path. It is empty if the list is missing.
    fn list_at(&self, path: &str) -> Result<String, Failure> {
        let list = match fs::open(self.rt, path) {
            Err(error) if error.kind() == ErrorKind::NotFound => return Ok(String::new(self.alloc)),
            file => file.and_then(|file| io::read_to_string(self.alloc, file)),
        };
        Failure::unless(self.alloc, READ, path, list)
    }

    // The files that the list of this path names, in the order of their names.
    fn names_in(&self, path: &str) -> Result<Vec<String>, Failure> {
        let list = self.list_at(path)?;
        let mut names = Vec::new(self.alloc);
        for name in list.lines() {
            if is_own_name(name.as_bytes()) {
                names.push(String::from_str(self.alloc, name)?)?;
            }
        }
        names.sort_unstable();
        Ok(names)
    }

    // Fails if the file of this path is another one than a list.
    fn leave_other_list(&self, path: &str) -> Result<(), Failure> {
        if is_list(self.list_at(path)?.as_str()) {
            Ok(())
        } else {
            Failure::in_place(self.alloc, path, self.command)
        }
    }

    // Fails if there is something in this place.
    fn leave_other(&self, path: &str) -> Result<(), Failure> {
        match fs::symlink_metadata(self.rt, path) {
            Err(error) if error.kind() == ErrorKind::NotFound => Ok(()),
            found => {
                Failure::unless(self.alloc, READ, path, found)?;
                Failure::in_place(self.alloc, path, self.command)
            }
        }
    }

    // Fails if the folder has something in the place of one of these files that no list names, or
    // in the place of its draft.
    fn leave_others(
        &self,
        names: &[String],
        earlier: &[String],
        begun: &[String],
    ) -> Result<(), Failure> {
        for name in names {
            if begun.binary_search(name).is_ok() {
                continue;
            }
            if earlier.binary_search(name).is_err() {
                self.leave_other(self.path_of(name)?.as_str())?;
            }
            self.leave_other(self.draft_of(name)?.as_str())?;
        }
        Ok(())
    }

    // The files of these paths; of a link, the link and what it leads to.
    fn ids_of(&self, paths: &[String]) -> Result<Vec<FileId>, AllocError> {
        let mut ids = Vec::new(self.alloc);
        for path in paths {
            put_id(&mut ids, fs::symlink_metadata(self.rt, path.as_str()))?;
            put_id(&mut ids, fs::metadata(self.rt, path.as_str()))?;
        }
        Ok(ids)
    }

    // Fails if the file of this path is one of these.
    fn leave_input(&self, path: &str, inputs: &[FileId]) -> Result<(), Failure> {
        match fs::symlink_metadata(self.rt, path) {
            Ok(found) if inputs.contains(&(found.dev(), found.ino())) => {
                Failure::is_read(self.alloc, path)
            }
            _ => Ok(()),
        }
    }

    // Fails if one of these files, or its draft, is among these inputs.
    fn leave_inputs(&self, names: &[String], inputs: &[FileId]) -> Result<(), Failure> {
        if inputs.is_empty() {
            return Ok(());
        }
        for name in names {
            self.leave_input(self.path_of(name)?.as_str(), inputs)?;
            self.leave_input(self.draft_of(name)?.as_str(), inputs)?;
        }
        Ok(())
    }

    // Removes the files of these names, but for those that are kept.
    fn remove_others(&self, names: &[String], kept: &[String]) -> Result<(), Failure> {
        for name in names {
            if kept.binary_search(name).is_err() {
                self.remove(self.path_of(name)?.as_str())?;
            }
        }
        Ok(())
    }

    // Removes the drafts of these files, and that of the list last.
    fn remove_drafts(&self, names: &[String]) -> Result<(), Failure> {
        for name in names {
            self.remove(self.draft_of(name)?.as_str())?;
        }
        self.remove(self.list_draft()?.as_str())
    }

    // Writes the draft of the list.
    fn write_list(&self, names: &[String]) -> Result<(), Failure> {
        let mut list = String::new(self.alloc);
        for name in names {
            writeln!(list, "{name}")?;
        }
        self.write(self.list_name()?.as_str(), list.as_str())
    }

    /// Begins to write files of these names, with the draft of their list, and makes the folder if
    /// it is missing. Returns the names of an earlier run's files. What a run left that was ended
    /// before its end is removed.
    ///
    /// # Errors
    ///
    /// A file that no list names has the place of one of these or of its draft, or another file the
    /// place of a list; one of the inputs, or a link to it, would be replaced or removed; or a file
    /// cannot be read, written or removed. Then the files of an earlier run are as they were.
    pub fn begin(&self, names: &[String], inputs: &[String]) -> Result<Vec<String>, Failure> {
        let made = fs::create_dir_all(self.rt, self.path);
        Failure::unless(self.alloc, WRITE, self.path, made)?;
        let (list, draft) = (
            self.path_of(self.list_name()?.as_str())?,
            self.list_draft()?,
        );
        self.leave_other_list(list.as_str())?;
        self.leave_other_list(draft.as_str())?;
        let (earlier, begun) = (
            self.names_in(list.as_str())?,
            self.names_in(draft.as_str())?,
        );
        let inputs = self.ids_of(inputs)?;
        for touched in [names, &earlier, &begun] {
            self.leave_inputs(touched, &inputs)?;
        }
        self.leave_others(names, &earlier, &begun)?;
        self.remove_others(&begun, &earlier)?;
        self.remove_drafts(&begun)?;
        let listed = self.write_list(names);
        self.unless_failed(&[], listed)?;
        Ok(earlier)
    }

    /// The draft of a file, which is new.
    pub fn create(&self, name: &str) -> Result<R::File, Failure> {
        let draft = self.draft_of(name)?;
        let mut options = OpenOptions::new();
        options.write(true).create_new(true);
        let file = options.open(self.rt, draft.as_str());
        Failure::unless(self.alloc, WRITE, draft.as_str(), file)
    }

    /// What was written of a file, or why it could not be: a failure of the output is the file's.
    pub fn written(&self, name: &str, written: Result<(), Failure>) -> Result<(), Failure> {
        match written {
            Err(Failure::Output(error)) => {
                let path = self.path_of(name)?;
                Failure::unless(self.alloc, WRITE, path.as_str(), Err(error))
            }
            written => written,
        }
    }

    /// Writes the draft of a file.
    pub fn write(&self, name: &str, text: &str) -> Result<(), Failure> {
        let mut file = self.create(name)?;
        let written = file.write_all(text.as_bytes());
        self.written(name, written.map_err(Failure::Output))
    }

    // Removes these drafts if one of them could not be written. Drafts that cannot be removed are
    // named by that of the list, and the next run removes them.
    fn unless_failed(&self, names: &[String], drafted: Result<(), Failure>) -> Result<(), Failure> {
        if drafted.is_err() {
            let _ = self.remove_drafts(names);
        }
        drafted
    }

    // Gives a draft its name.
    fn rename(&self, name: &str) -> Result<(), Failure> {
        let (draft, path) = (self.draft_of(name)?, self.path_of(name)?);
        let named = fs::rename(self.rt, draft.as_str(), path.as_str());
        Failure::unless(self.alloc, WRITE, path.as_str(), named)
    }

    /// Ends what was begun: if all drafts of these files are whole they get their names, and the
    /// other files of an earlier run are removed. If not, the drafts are removed, and the files of
    /// an earlier run are as they were.
    pub fn end(
        &self,
        names: &[String],
        earlier: &[String],
        drafted: Result<(), Failure>,
    ) -> Result<(), Failure> {
        self.unless_failed(names, drafted)?;
        let kept = self.names_in(self.list_draft()?.as_str())?;
        for name in names {
            self.rename(name)?;
        }
        self.remove_others(earlier, &kept)?;
        self.rename(self.list_name()?.as_str())
    }
}
