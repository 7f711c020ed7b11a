//! Cuts a text into lines at each line feed, and a line into tokens at each space, and reads a
//! line as a move. Nothing is copied.

ghost use Rattle.std.specs.Prelude.{◌≡◌, [], ◌==◌, ◌∷◌, ◌+◌, ◌<◌, MatchOption, IfSome, length};
ghost use Rattle.std.specs.Prelude.{◌^◌, IfNone, false};
ghost use Rattle.std.specs.List.{slice_split};
ghost use Rattle.lk_lines.specs.Lines.{lines_of, tokens_of, is_skipped, move_of};
ghost use Rattle.lk_lines.specs.Lines.{IsNextMove, Numbered, SkipsTo};

mod first_move;

use crate::vocabulary::{move_named, number_of};
use first_move::first_move;
use lk_locks::Move;
use std::marker::Model;

/// The text before the first such byte, and the text after it. Lines and tokens are short, so one
/// byte after another is looked at.
pub(crate) fn cut_at(text: &[u8], byte: u8) -> Option<(&[u8], &[u8])>
    ensures pieces { MatchOption result (slice_split (λ b. b == byte) text.now ≡ text.now ∷ [])
        (λ cut. slice_split (λ b. b == byte) text.now
        ≡ cut.0.now ∷ slice_split (λ b. b == byte) cut.1.now) }
    ensures whole { IfSome result
        (λ cut. length cut.0.now + 1 + length cut.1.now ≡ length text.now) }
{
    for (at, found) in text.iter().enumerate() {
        if *found == byte {
            return Some((&text[..at], &text[at + 1..]));
        }
    }
    None
}

/// The first line of a text that is not empty, and the text after it.
pub fn cut_line(text: &[u8]) -> (&[u8], &[u8])
    requires { 0 < length text.now }
    ensures first { lines_of text.now ≡ result.0.now ∷ lines_of result.1.now }
    ensures shorter { length result.1.now < length text.now }
{
    match cut_at(text, b'\n') {
        Some(cut) => cut,
        None => (text, &[]),
    }
}

/// The first token of a line, and the line after its space.
pub fn cut_token(line: &[u8]) -> Option<(&[u8], &[u8])>
    ensures { MatchOption result (tokens_of line.now ≡ line.now ∷ [])
        (λ cut. tokens_of line.now ≡ cut.0.now ∷ tokens_of cut.1.now) }
{
    cut_at(line, b' ')
}

/// Whether a line is empty or a comment.
pub fn is_skipped(line: &[u8]) -> bool
    ensures { result ≡ is_skipped line.now }
{
    line.is_empty() || line[0] == b'#'
}

/// The move that a line is: a thread's number, one space, and its name.
#[tactic(auto, unfolding(crate::specs::Lines::move_of))]
pub fn move_of(line: &[u8]) -> Option<(u8, Move)>
    ensures { result ≡ move_of line.now }
{
    let (number, token) = cut_token(line)?;
    let thread = number_of(number, 0, 255)?;
    let action = move_named(token)?;
    Some((thread, action))
}

/// The lines of a text that are neither empty nor comments, one after another, each with its number
/// in the text. It is the one loop over the lines of a schedule text.
#[derive(Drop)]
pub struct Lines<'a> {
    // The text from the next line on, and that line's number.
    rest: &'a [u8],
    number: u32,
}

impl<'a> Model for Lines<'a> {
    ghost Value = { Numbered };

    ghost view = { λ a. record { number = a.number; lines = lines_of a.rest.now } };

    ghost invariant = { λ a. a.number + length a.rest.now < 2 ^ 32 };
}

impl<'a> Lines<'a> {
    /// Those of a whole text.
    pub fn new(text: &'a [u8]) -> Lines<'a>
        requires { 1 + length text.now < 2 ^ 32 }
        ensures { result ≡ record { number = 1; lines = lines_of text.now } }
    {
        Lines {
            rest: text,
            number: 1,
        }
    }

    /// The same lines, to go through them a second time.
    pub fn copy(&self) -> Lines<'a>
        ensures { result ≡ self.now }
    {
        Lines {
            rest: self.rest,
            number: self.number,
        }
    }

    /// The number of the next line of the text: after the last, the count of its lines plus one.
    pub fn number(&self) -> u32
        ensures { result ≡ self.now.number }
    {
        self.number
    }

    /// The next line's number and move, if it is a move as most are. Else nothing was read.
    pub fn next_move(&mut self) -> Option<(u32, u8, Move)>
        ensures read { IfSome result (λ read.
            IsNextMove self.old read.0 read.1 read.2 self.new) }
        ensures none { IfNone result (self.new ≡ self.old) }
    {
        let (thread, action, rest) = first_move(self.rest)?;
        let number = self.number;
        self.rest = rest;
        self.number = number + 1;
        Some((number, thread, action))
    }

    /// The next line that is not skipped, and its number. After the last one no line is left.
    pub fn next_line(&mut self) -> Option<(u32, &'a [u8])>
        ensures found { IfSome result (λ line.
            SkipsTo self.old.number self.old.lines line.0 (line.1.now ∷ self.new.lines)) }
        ensures read { IfSome result (λ line. is_skipped line.1.now ≡ false) }
        ensures counted { IfSome result (λ line. self.new.number ≡ line.0 + 1) }
        ensures end { IfNone result
            (SkipsTo self.old.number self.old.lines self.new.number self.new.lines) }
        ensures none { IfNone result (self.new.lines ≡ []) }
    {
        let mut rest = self.rest;
        let mut number = self.number;
        while !rest.is_empty() {
            let (line, after) = cut_line(rest);
            if !is_skipped(line) {
                self.rest = after;
                self.number = number + 1;
                return Some((number, line));
            }
            number += 1;
            rest = after;
        }
        self.rest = rest;
        self.number = number;
        None
    }
}
