//! The header of a schedule text: `lock NAME threads N`, and `bits B` if words have fewer than
//! 64 bits.

ghost use Rattle.std.specs.Prelude.{◌≡◌, ◌≤◌, MatchOption, IfSome, IfErr, None, Some};
ghost use Rattle.std.specs.Option.{option_zip};
ghost use Rattle.lk_lines.specs.Lines.{tokens_of};
ghost use Rattle.lk_lines.specs.Header.{size_of_tokens, header_of_tokens, header_of};
ghost use Rattle.lk_lines.specs.Reads.{Gives, IsOfText};

use crate::ReadFault;
use crate::lines::cut_token;
use crate::vocabulary::{lock_named, number_of};
use lk_locks::{LockKind, Shape};

// The token that counts the threads, and the bits of a word.
fn size_of(tokens: &[u8]) -> Option<(&[u8], u8)>
    ensures size { MatchOption result (size_of_tokens (tokens_of tokens.now) ≡ None)
        (λ size. size_of_tokens (tokens_of tokens.now) ≡ Some (size.0.now, size.1)) }
    ensures least { IfSome result (λ size. 2 ≤ size.1) }
    ensures most { IfSome result (λ size. size.1 ≤ 64) }
{
    let Some((count, rest)) = cut_token(tokens) else {
        return Some((tokens, 64));
    };
    let (token, number) = cut_token(rest)?;
    if token != b"bits".as_slice() {
        return None;
    }
    if let Some(_) = cut_token(number) {
        return None;
    }
    let bits = number_of(number, 2, 64)?;
    Some((count, bits))
}

// The lock, and the tokens after `threads`.
fn named_lock(line: &[u8]) -> Option<(LockKind, &[u8])>
    ensures { MatchOption result (header_of_tokens (tokens_of line.now) ≡ None)
        (λ lock. header_of_tokens (tokens_of line.now)
        ≡ option_zip (Some lock.0) (size_of_tokens (tokens_of lock.1.now))) }
{
    let (lock, rest) = cut_token(line)?;
    let (name, rest) = cut_token(rest)?;
    let (threads, size) = cut_token(rest)?;
    if lock != b"lock".as_slice() || threads != b"threads".as_slice() {
        return None;
    }
    let kind = lock_named(name)?;
    Some((kind, size))
}

/// The header that line `number` is.
///
/// # Errors
///
/// The line's fault is `BadHeader`, `BadThreads` or `WordsTooNarrow`, with its number.
#[tactic(auto, unfolding(crate::specs::Header::header_of))]
pub fn header_of(line: &[u8], number: u32) -> Result<Shape, ReadFault>
    ensures read { Gives (λ header. header) result (header_of number line.now) }
    ensures no_memory { IfErr result IsOfText }
{
    let (kind, tokens) = named_lock(line).ok_or(ReadFault::BadHeader(number))?;
    let (count, bits) = size_of(tokens).ok_or(ReadFault::BadHeader(number))?;
    let threads = number_of(count, 1, 64).ok_or(ReadFault::BadThreads(number))?;
    if u128::from(threads) < 1u128 << bits {
        Ok(Shape::new(kind, threads, bits))
    } else {
        Err(ReadFault::WordsTooNarrow(number))
    }
}
