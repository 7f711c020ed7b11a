//! The names of locks, calls, steps and outcomes in a text, and numbers. Each name is written once,
//! in a table that is read both ways and listed.

ghost use Rattle.std.specs.Prelude.{◌≡◌, ◌≤◌, ◌++◌, ◌∷◌, IfSome, codes, length, take};
ghost use Rattle.lk_lines.specs.Digits.{whole_number};
ghost use Rattle.lk_lines.specs.Vocabulary.{lock_name, lock_named, move_named, move_name};
ghost use Rattle.lk_lines.specs.Vocabulary.{number_of, outcome_named, outcome_name};

use lk_locks::{LockKind, Move, Op, Outcome, StepKind};

// The names of the locks.
macro_rules! lock_names {
    ($rule:ident, $given:expr) => {
        $rule!($given;
            [LockKind::Ticket] "ticket",
            [LockKind::Mcs] "mcs",
            [LockKind::RwSimple] "rw-simple",
            [LockKind::RwFifo] "rw-fifo",
        )
    };
}

// The names of the moves. The steps are tried first, and of these the most common.
macro_rules! move_names {
    ($rule:ident, $given:expr) => {
        $rule!($given;
            [Move::Step(StepKind::Read)] "read",
            [Move::Step(StepKind::Section)] "section",
            [Move::Step(StepKind::Write)] "write",
            [Move::Step(StepKind::Swap)] "swap",
            [Move::Step(StepKind::Cas)] "cas",
            [Move::Step(StepKind::Add)] "add",
            [Move::Call(Op::Acquire)] "acquire",
            [Move::Call(Op::Release)] "release",
            [Move::Call(Op::ReadLock)] "rlock",
            [Move::Call(Op::ReadUnlock)] "runlock",
            [Move::Call(Op::WriteLock)] "wlock",
            [Move::Call(Op::WriteUnlock)] "wunlock",
            [Move::Call(Op::Downgrade)] "downgrade",
        )
    };
}

// The names of the outcomes of steps, after that of a call if it is given.
macro_rules! outcome_names {
    ($rule:ident, $given:expr $(, $($call:tt)+)?) => {
        $rule!($given;
            $($($call)+)?
            [Outcome::Moved] "moved",
            [Outcome::Waits] "waits",
            [Outcome::Entered] "entered",
            [Outcome::Left] "left",
        )
    };
}

// The meaning of a name, by such a table.
macro_rules! named {
    ($name:expr; $([$($value:tt)+] $text:literal,)+) => {
        $(if $name == $text.as_bytes() { Some($($value)+) } else)+ { None }
    };
}

// The name of a value, by such a table.
macro_rules! text {
    ($value:expr; $([$($pattern:tt)+] $text:literal,)+) => {
        match $value { $($($pattern)+ => $text,)+ }
    };
}

// The name of a value and a space, at the front of at least 16 bytes, and how long that is.
macro_rules! block {
    ($value:expr; $([$($pattern:tt)+] $text:literal,)+) => {
        match $value {
            $($($pattern)+ => (concat!($text, "                ").as_bytes(), $text.len() + 1),)+
        }
    };
}

// The meaning of such a name before a line feed, at the front of a text, and the text after them.
macro_rules! first {
    ($whole:expr; $([$($value:tt)+] $text:literal,)+) => {
        $(if let Some(rest) = rest_after($whole, concat!($text, "\n").as_bytes()) {
            Some(($($value)+, rest))
        } else)+ { None }
    };
}

// All names of such a table.
macro_rules! names {
    ($given:expr; $([$($value:tt)+] $text:literal,)+) => { [$($text,)+] };
}

/// The names of all locks.
pub const LOCK_NAMES: [&str; 4] = lock_names!(names, ());

/// The names of all moves.
pub const MOVE_NAMES: [&str; 13] = move_names!(names, ());

/// The names of all outcomes of a step.
pub const OUTCOME_NAMES: [&str; 4] = outcome_names!(names, ());

/// The number of at most 64 bits that the text is, without leading zeros.
#[tactic(auto, unfolding(crate::specs::Digits::whole_number))]
pub fn whole_number(text: &[u8]) -> Option<u64>
    ensures { result ≡ whole_number text.now }
{
    if text.is_empty() || (text.len() > 1 && text[0] == b'0') {
        return None;
    }
    let mut value: u64 = 0;
    for b in text {
        if !b.is_ascii_digit() {
            return None;
        }
        value = value.checked_mul(10)?.checked_add(u64::from(*b - b'0'))?;
    }
    Some(value)
}

/// The number from `least` to `most` that the text is, without leading zeros.
#[tactic(auto, unfolding(crate::specs::Vocabulary::number_of, crate::specs::Digits::whole_number))]
pub fn number_of(text: &[u8], least: u8, most: u8) -> Option<u8>
    ensures number { result ≡ number_of least most text.now }
    ensures least { IfSome result (λ n. least ≤ n) }
    ensures most { IfSome result (λ n. n ≤ most) }
{
    let value = whole_number(text)?;
    if value < u64::from(least) || value > u64::from(most) {
        return None;
    }
    Some(value as u8)
}

/// The lock of that name.
#[tactic(auto, unfolding(crate::specs::Vocabulary::lock_named))]
pub fn lock_named(name: &[u8]) -> Option<LockKind>
    ensures { result ≡ lock_named name.now }
{
    lock_names!(named, name)
}

/// The name of a lock.
pub fn lock_text(kind: LockKind) -> &'static str
    ensures { result.now ≡ lock_name kind }
{
    lock_names!(text, kind)
}

/// The move of that name.
#[tactic(auto, unfolding(crate::specs::Vocabulary::move_named))]
pub fn move_named(name: &[u8]) -> Option<Move>
    ensures { result ≡ move_named name.now }
{
    move_names!(named, name)
}

/// The name of a move.
pub fn move_text(action: Move) -> &'static str
    ensures name { result.now ≡ move_name action }
    ensures short { length result.now ≤ 14 }
{
    move_names!(text, action)
}

/// The name of a move and a space, at the front of a block, and how long that is.
pub fn move_block(action: Move) -> (&'static [u8], usize)
    ensures text { take result.1 result.0.now ≡ move_name action ++ codes " " }
    ensures wide { 16 ≤ length result.0.now }
    ensures fits { result.1 ≤ 16 }
{
    move_names!(block, action)
}

// The text after the bytes with which it begins. Most names differ from it in their first four
// bytes, which are compared at once.
#[inline(always)]
fn rest_after<'a>(text: &'a [u8], bytes: &[u8]) -> Option<&'a [u8]>
    requires { 4 ≤ length bytes.now }
    ensures { IfSome result (λ rest. text.now ≡ bytes.now ++ rest.now) }
{
    let Some(rest) = text.strip_prefix(&bytes[..4]) else {
        return None;
    };
    rest.strip_prefix(&bytes[4..])
}

/// The move whose name comes first in a text, before a line feed, and the text after that.
pub fn first_action(text: &[u8]) -> Option<(Move, &[u8])>
    ensures { IfSome result (λ first. text.now ≡ move_name first.0 ++ 10 ∷ first.1.now) }
{
    move_names!(first, text)
}

/// The outcome of a step that has this name.
#[tactic(auto, unfolding(crate::specs::Vocabulary::outcome_named))]
pub fn outcome_named(name: &[u8]) -> Option<Outcome>
    ensures { result ≡ outcome_named name.now }
{
    outcome_names!(named, name)
}

/// The name of an outcome.
pub fn outcome_text(outcome: Outcome) -> &'static str
    ensures { result.now ≡ outcome_name outcome }
{
    outcome_names!(text, outcome, [Outcome::Called] "called",)
}

/// The name of an outcome and a space, at the front of a block, and how long that is.
pub fn outcome_block(outcome: Outcome) -> (&'static [u8], usize)
    ensures text { take result.1 result.0.now ≡ outcome_name outcome ++ codes " " }
    ensures wide { 16 ≤ length result.0.now }
    ensures fits { result.1 ≤ 16 }
{
    outcome_names!(block, outcome, [Outcome::Called] "called",)
}
