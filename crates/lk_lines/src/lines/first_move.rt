//! The first line of a text, if it is a move as most are: a thread's number of one or two digits, a
//! name and a line feed. Nothing is cut from the text: to cut its line, and then tokens from that,
//! took longer than to play the move.

ghost use Rattle.std.specs.Prelude.{◌≡◌, ◌++◌, ◌∷◌, IfSome};
ghost use Rattle.lk_lines.specs.FirstMove.{IsFirstMove, IsFirstThread};
ghost use Rattle.lk_lines.specs.Vocabulary.{move_name};

use crate::vocabulary::first_action;
use lk_locks::Move;

// The thread whose number comes first, before a space, and the text after that.
fn first_thread(text: &[u8]) -> Option<(u8, &[u8])>
    ensures { IfSome result (λ first. IsFirstThread text.now first.0 first.1.now) }
{
    if text.len() < 3 || !text[0].is_ascii_digit() {
        return None;
    }
    let first = text[0] - b'0';
    if text[1] == b' ' {
        return Some((first, &text[2..]));
    }
    if first == 0 || !text[1].is_ascii_digit() || text[2] != b' ' {
        return None;
    }
    Some((first * 10 + (text[1] - b'0'), &text[3..]))
}

/// The thread and the move of a text's first line, if it is such a line, and the text after it.
pub fn first_move(text: &[u8]) -> Option<(u8, Move, &[u8])>
    ensures { IfSome result (λ first. IsFirstMove text.now first.0 first.1 first.2.now) }
{
    let (thread, rest) = first_thread(text)?;
    let (action, rest) = first_action(rest)?;
    Some((thread, action, rest))
}
