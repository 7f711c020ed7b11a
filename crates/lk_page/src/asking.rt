//! A page asks for a search by numbers: a lock, and how many times each thread takes it.

ghost use Rattle.std.specs.Prelude.{◌≡◌, IfSome, None, length};
ghost use Rattle.lk_page.specs.Asked.{IsAsked, asked_by, lock_of};

use lk_locks::{LockKind, Shape};

/// A new lock, and how many times each of its threads may take it.
#[derive(Clone, Copy)]
pub struct Asked {
    pub shape: Shape,
    pub rounds: u8,
}

/// The lock with this number.
pub fn lock_of(number: u64) -> LockKind
    ensures { result ≡ lock_of number }
{
    match number {
        0 => LockKind::Ticket,
        1 => LockKind::Mcs,
        2 => LockKind::RwSimple,
        _ => LockKind::RwFifo,
    }
}

/// The lock and the rounds that these numbers ask for, if there is such a lock.
pub fn asked_of(lock: u64, threads: u64, bits: u64, rounds: u64) -> Option<Asked>
    ensures asked { IfSome result (λ a. a ≡ asked_by lock threads bits rounds) }
    ensures is_asked { IfSome result (λ a. IsAsked lock threads bits rounds) }
    ensures none { result ≡ None → ¬ IsAsked lock threads bits rounds }
{
    if lock > 3 || threads < 1 || threads > 64 || bits < 2 || bits > 64 {
        return None;
    }
    if rounds < 1 || rounds > 255 {
        return None;
    }
    let (threads, bits) = (threads as u8, bits as u8);
    if u128::from(threads) >= 1u128 << bits {
        return None;
    }
    Some(Asked {
        shape: Shape::new(lock_of(lock), threads, bits),
        rounds: rounds as u8,
    })
}
