//! A line of a trace as numbers: how long its move is, and the parts that follow.

ghost use Rattle.std.specs.Prelude.{◌≡◌, length};
ghost use Rattle.lk_lines.specs.Lines.{tokens_of};
ghost use Rattle.lk_page.specs.TraceParts.{given, head_size, parts_of, word_code, word_owner};

use lk_lines::cut_token;
use lk_trace::{Seen, WordName, outcome_number};

/// The number of parts.
pub const PARTS: usize = 11;

/// Returns the number of bytes of a line's first two words, with the space between them.
pub fn head_size(line: &[u8]) -> usize
    ensures { result ≡ head_size (tokens_of line.now) }
{
    let Some((thread, rest)) = cut_token(line) else {
        return 0;
    };
    let action = match cut_token(rest) {
        Some((action, _)) => action,
        None => rest,
    };
    thread.len() + 1 + action.len()
}

// The code of a word's name, and the thread in whose record it is, or 0.
fn word_numbers(word: WordName) -> (u64, u64)
    ensures code { result.0 ≡ word_code word }
    ensures owner { result.1 ≡ word_owner word }
{
    match word {
        WordName::NextTicket => (1, 0),
        WordName::NowServing => (2, 0),
        WordName::Tail => (3, 0),
        WordName::Next(owner) => (4, u64::from(owner)),
        WordName::Locked(owner) => (5, u64::from(owner)),
        // no line names a word of a monitor
        _ => (0, 0),
    }
}

// 1 and a number, or 0 and 0 if it is not given.
fn given(number: Option<u64>) -> [u64; 2]
    ensures { result ≡ given number }
{
    match number {
        Some(number) => [1, number],
        None => [0, 0],
    }
}

/// Returns the parts of a move whose first two words have so many bytes.
pub fn parts_of(size: usize, seen: Seen) -> [u64; PARTS]
    ensures parts { result ≡ parts_of size seen }
    ensures size { length result ≡ 11 }
{
    let size = size as u64;
    match seen {
        Seen::Nothing => [size, 0, 0, 0, 0, 0, 0, 0, 0, 0, 0],
        Seen::OnWord {
            word,
            found,
            left,
            wrote,
        } => {
            let (code, owner) = word_numbers(word);
            let [has_found, found] = given(found);
            let [has_left, left] = given(left);
            let ended = wrote.map_or(0, |wrote| if wrote { 2 } else { 1 });
            [
                size, code, owner, has_found, found, has_left, left, ended, 0, 0, 0,
            ]
        }
        Seen::WithOutcome { count, outcome } => {
            let [has_count, count] = given(count);
            let outcome = outcome.map_or(0, |outcome| 1 + u64::from(outcome_number(outcome)));
            [size, 0, 0, 0, 0, 0, 0, 0, has_count, count, outcome]
        }
    }
}
