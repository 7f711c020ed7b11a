//! The schedule that a text has: its lock and its moves, each with its line.

ghost use Rattle.std.specs.Prelude.{◌≡◌, ◌≢◌, ◌+◌, ◌<◌, ◌≤◌, ◌^◌, [], length, IfErr, IfNone, IfOk};
ghost use Rattle.std.specs.Prelude.{IfSome, MatchOption, Ok};
ghost use Rattle.lk_lines.specs.Reads.{Fails, Gives, IsOfText};
ghost use Rattle.lk_replay.specs.Schedule.{AreMoves, Plan, move_count, moves_from, moves_left};
ghost use Rattle.lk_replay.specs.Schedule.{plan_of, with_header, with_line};

use lk_lines::{Lines, ReadFault, header_of, move_of};
use lk_locks::{LockKind, Move, Shape};
use std::alloc::Global;
use std::marker::Model;

/// The most bytes of a schedule text.
pub const MOST_BYTES: usize = 1_048_576;

/// The most moves of a schedule.
pub const MOST_MOVES: usize = 65_536;

// The bytes of the shortest move's line: a digit, a space, three letters and the line feed.
const SHORTEST_MOVE: usize = 6;

/// A move, and the line of the text in which it is, from 1.
#[derive(Clone, Copy, PartialEq, Eq, Debug)]
pub struct Line {
    pub number: u32,
    pub thread: u8,
    pub action: Move,
}

/// The lock and the moves of a schedule text.
#[derive(Drop)]
pub struct Schedule {
    shape: Shape,
    moves: Vec<Line>,
}

impl Model for Schedule {
    ghost Value = { Plan };

    ghost view = { λ a. record { shape = a.shape; moves = a.moves.items } };

    ghost invariant = { λ a. length a.moves.items ≤ 65536 };
}

impl Schedule {
    /// The lock, its threads and its words.
    pub fn shape(&self) -> Shape
        ensures { result ≡ self.now.shape }
    {
        self.shape
    }

    /// The lock.
    pub fn kind(&self) -> LockKind
        ensures { result ≡ self.now.shape.kind }
    {
        self.shape.kind()
    }

    /// The number of its threads.
    pub fn threads(&self) -> u8
        ensures threads { result ≡ self.now.shape.threads }
        ensures some { 0 < result }
        ensures few { result ≤ 64 }
        ensures narrow { result < 2 ^ self.now.shape.bits }
    {
        self.shape.threads()
    }

    /// Returns the number of bits of a word, from 2 to 64.
    pub fn bits(&self) -> u8
        ensures bits { result ≡ self.now.shape.bits }
        ensures least { 2 ≤ result }
        ensures most { result ≤ 64 }
    {
        self.shape.bits()
    }

    /// The moves, in order.
    pub fn moves(&self) -> &[Line]
        ensures moves { result.now ≡ self.now.moves }
        ensures few { length result.now ≤ 65536 }
    {
        self.moves.as_slice()
    }
}

/// Reads the header of a schedule text, and returns the lines after it. With `read_move` it reads a
/// schedule without taking memory.
///
/// # Errors
///
/// The text's fault, if it is of the length or of the header.
#[tactic(auto, unfolding(crate::specs::Schedule::plan_of))]
pub fn read_header(text: &[u8]) -> Result<(Shape, Lines<'_>), ReadFault>
    ensures read { IfOk result (λ read. plan_of text.now
        ≡ with_header (Ok read.0) (moves_from read.1.number 0 read.1.lines)) }
    ensures fault { IfErr result (λ fault. Fails fault (plan_of text.now)) }
    ensures no_memory { IfErr result IsOfText }
{
    if text.len() > MOST_BYTES {
        return Err(ReadFault::TooLong);
    }
    let mut lines = Lines::new(text);
    let Some((number, line)) = lines.next_line() else {
        return Err(ReadFault::NoHeader(lines.number()));
    };
    let header = header_of(line, number)?;
    Ok((header, lines))
}

/// Reads the next move of these lines, before which there were `taken`.
///
/// # Errors
///
/// The next line that is not skipped is no move, or it is one too many.
pub fn read_move(lines: &mut Lines<'_>, taken: usize) -> Result<Option<Line>, ReadFault>
    ensures read { IfOk result (λ next. MatchOption next
        (moves_from lines.old.number taken lines.old.lines ≡ Ok [])
        (λ line. moves_from lines.old.number taken lines.old.lines
        ≡ with_line line (moves_from lines.new.number (taken + 1) lines.new.lines))) }
    ensures none { IfOk result (λ next. IfNone next (lines.new.lines ≡ [])) }
    ensures room { IfOk result (λ next. IfSome next (λ line. taken ≢ 65536)) }
    ensures fewer { IfOk result (λ next.
        IfSome next (λ line. length lines.new.lines < length lines.old.lines)) }
    ensures fault { IfErr result
        (λ fault. Fails fault (moves_from lines.old.number taken lines.old.lines)) }
    ensures no_memory { IfErr result IsOfText }
{
    let (number, thread, action) = match lines.next_move() {
        Some(read) => read,
        None => {
            let Some((number, line)) = lines.next_line() else {
                return Ok(None);
            };
            let Some((thread, action)) = move_of(line) else {
                return Err(ReadFault::BadLine(number));
            };
            (number, thread, action)
        }
    };
    if taken == MOST_MOVES {
        return Err(ReadFault::TooManyMoves(number));
    }
    Ok(Some(Line {
        number,
        thread,
        action,
    }))
}

// The number of moves in these lines.
fn count_moves(lines: Lines<'_>) -> Result<u32, ReadFault>
    ensures read { Gives (λ count. count) result
        (move_count (moves_from lines.entry.number 0 lines.entry.lines)) }
    ensures no_memory { IfErr result IsOfText }
{
    let mut lines = lines;
    let mut count: u32 = 0;
    while let Some(_) = read_move(&mut lines, count as usize)? {
        count += 1;
    }
    Ok(count)
}

/// Reads a schedule text to its end without taking memory, and returns its lock, the lines of its
/// moves, and how many these are. `read_move` reads the moves again.
///
/// # Errors
///
/// The text's fault.
pub fn open_schedule(text: &[u8]) -> Result<(Shape, Lines<'_>, u32), ReadFault>
    ensures read { Gives (λ read. record { shape = read.0; moves = moves_left read.1 0 }) result
        (plan_of text.now) }
    ensures whole { IfOk result (λ read. AreMoves read.1 0) }
    ensures count { IfOk result (λ read. read.2 ≡ length (moves_left read.1 0)) }
    ensures no_memory { IfErr result IsOfText }
{
    let (shape, lines) = read_header(text)?;
    let count = count_moves(lines.copy())?;
    Ok((shape, lines, count))
}

// The moves of these lines, for which there is room for `most` at first.
#[tactic(auto, using(crate::proofs::Moves::moves_want))]
fn read_moves(alloc: Global, lines: Lines<'_>, most: usize) -> Result<Vec<Line>, ReadFault>
    requires { most ≤ 65536 }
    ensures few { IfOk result (λ moves. length moves.items ≤ 65536) }
    ensures read { Gives (λ moves. moves.items) result
        (moves_from lines.entry.number 0 lines.entry.lines) }
{
    let mut moves = Vec::with_capacity(alloc, most)?;
    let mut lines = lines;
    while let Some(line) = read_move(&mut lines, moves.len())? {
        moves.push(line).or(Err(ReadFault::OutOfMemory))?;
    }
    Ok(moves)
}

/// Reads a schedule text: its schedule, or the first fault from the first line to the last.
///
/// # Errors
///
/// Faults of the length and of the header are answered without taking memory. If a request for
/// memory was refused, `OutOfMemory` may be returned in place of a later one.
pub fn read_schedule(alloc: Global, bytes: &[u8]) -> Result<Schedule, ReadFault>
    ensures { Gives (λ schedule. schedule) result (plan_of bytes.now) }
{
    let (shape, lines) = read_header(bytes)?;
    let most = (bytes.len() / SHORTEST_MOVE).min(MOST_MOVES);
    let moves = read_moves(alloc, lines, most)?;
    Ok(Schedule { shape, moves })
}
