//! The place at which a line of a schedule text stops being one, and what could be there, for a
//! message to its writer. `header_of` and `move_of` say whether a line is a header or a move, and
//! the contracts here say that a line has such a place exactly if it is not.

ghost use Rattle.std.specs.Prelude.{◌≡◌, IsSome, IsNone, ◌↔◌, ℕ};
ghost use Rattle.lk_lines.specs.Header.{header_of};
ghost use Rattle.lk_lines.specs.Lines.{tokens_of, move_of};
ghost use Rattle.lk_lines.specs.Unreadable.{IsHeader, after_token, may_end, unreadable_from};
ghost use Rattle.lk_lines.specs.declared.unreadable.Expected.TheVariants.{Lock, Thread};

use crate::lines::cut_at;
use crate::vocabulary::{lock_named, move_named, number_of};
use thiserror::Error;

/// A part that may come next in a line.
#[derive(Clone, Copy, PartialEq, Eq, Debug, Error)]
pub enum Expected {
    #[error("'lock'")]
    Lock,
    #[error("ticket, mcs, rw-simple or rw-fifo")]
    Name,
    #[error("'threads'")]
    Threads,
    #[error("a number of threads, from 1 to 64")]
    Count,
    #[error("the end, or 'bits'")]
    Bits,
    #[error("a number of bits, from 2 to 64")]
    Width,
    #[error("a thread's number, from 0 to 255, without leading zeros")]
    Thread,
    #[error("a call (acquire, rlock ..) or a step (read, write, swap, cas, add, section)")]
    Action,
    #[error("the end")]
    End,
}

impl Expected {
    /// The part that may come after this token, or none if it may not be here.
    #[tactic(auto, unfolding(crate::specs::Unreadable::after_token))]
    pub fn after(self, token: &[u8]) -> Option<Expected>
        ensures { result ≡ after_token self token.now }
    {
        let (is_here, next) = match self {
            Expected::Lock => (token == b"lock".as_slice(), Expected::Name),
            Expected::Name => (lock_named(token).is_some(), Expected::Threads),
            Expected::Threads => (token == b"threads".as_slice(), Expected::Count),
            Expected::Count => (number_of(token, 1, 64).is_some(), Expected::Bits),
            Expected::Bits => (token == b"bits".as_slice(), Expected::Width),
            Expected::Width => (number_of(token, 2, 64).is_some(), Expected::End),
            Expected::Thread => (number_of(token, 0, 255).is_some(), Expected::Action),
            Expected::Action => (move_named(token).is_some(), Expected::End),
            Expected::End => (false, Expected::End),
        };
        if is_here { Some(next) } else { None }
    }

    /// Whether the line may end here.
    pub fn may_end(self) -> bool
        ensures { result ≡ may_end self }
    {
        matches!(self, Expected::Bits | Expected::End)
    }
}

// The column of a line, in bytes from 1, at which a token begins that may not be there or one is
// missing, and what could be there. The first token may be `first`.
fn unreadable_from(line: &[u8], first: Expected) -> Option<(usize, Expected)>
    ensures { result ≡ unreadable_from 1 first (tokens_of line.now) }
{
    let mut rest = line;
    let mut column: usize = 1;
    let mut expected = first;
    while let Some((token, after)) = cut_at(rest, b' ') {
        let Some(next) = expected.after(token) else {
            return Some((column, expected));
        };
        column += token.len() + 1;
        rest = after;
        expected = next;
    }
    let Some(next) = expected.after(rest) else {
        return Some((column, expected));
    };
    if next.may_end() {
        return None;
    }
    Some((column + rest.len() + 1, next))
}

/// The place at which a line stops being a header. A header whose words are too narrow for its
/// threads has no such place.
pub fn unreadable_header(line: &[u8]) -> Option<(usize, Expected)>
    ensures place { result ≡ unreadable_from 1 Lock (tokens_of line.now) }
    ensures none { (number : ℕ) → IsNone result ↔ IsHeader (header_of number line.now) }
{
    unreadable_from(line, Expected::Lock)
}

/// The place at which a line stops being a move.
pub fn unreadable_move(line: &[u8]) -> Option<(usize, Expected)>
    ensures place { result ≡ unreadable_from 1 Thread (tokens_of line.now) }
    ensures none { IsNone result ↔ IsSome (move_of line.now) }
{
    unreadable_from(line, Expected::Thread)
}
