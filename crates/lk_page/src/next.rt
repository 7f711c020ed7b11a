//! The machine tells which calls a thread may make next, and whether it has to wait.

ghost use Rattle.std.specs.Prelude.{◌≡◌, ◌<◌, ◌≤◌, length};
ghost use Rattle.lk_page.specs.Next.{call_bit, allowed_calls, next_waits, waits_after};

use lk_locks::{Machine, Move, Op, Outcome};
use lk_words::WordArray;

// 1 if the call would be accepted.
fn call_bit(machine: &Machine<WordArray>, thread: u8, op: Op) -> u8
    ensures bit { result ≡ call_bit machine.now thread op }
    ensures small { result ≤ 1 }
{
    u8::from(machine.check(thread, Move::Call(op)).is_ok())
}

/// The calls that would be accepted of a thread: bit k for the call with code k.
pub fn allowed_calls(machine: &Machine<WordArray>, thread: u8) -> u8
    ensures { result ≡ allowed_calls machine.now thread }
{
    call_bit(machine, thread, Op::Acquire)
        + 2 * call_bit(machine, thread, Op::Release)
        + 4 * call_bit(machine, thread, Op::ReadLock)
        + 8 * call_bit(machine, thread, Op::ReadUnlock)
        + 16 * call_bit(machine, thread, Op::WriteLock)
        + 32 * call_bit(machine, thread, Op::WriteUnlock)
        + 64 * call_bit(machine, thread, Op::Downgrade)
}

// Whether the thread's next step, taken now, would be a failed poll.
fn next_waits(machine: &Machine<WordArray>, thread: u8) -> bool
    requires { thread < length machine.now.phases }
    ensures { result ≡ next_waits machine.now thread }
{
    match machine.effect(thread) {
        Some(effect) => matches!(effect.outcome(), Outcome::Waits),
        None => false,
    }
}

/// Whether a thread waits after a move of its own with this outcome: the move was a failed poll, or
/// the thread is in the queue and its next step would be one.
pub fn waits_after(
    machine: &Machine<WordArray>,
    thread: u8,
    outcome: Outcome,
    is_queued: bool,
) -> bool
    requires { thread < length machine.now.phases }
    ensures { result ≡ waits_after machine.now thread outcome is_queued }
{
    matches!(outcome, Outcome::Waits) || (is_queued && next_waits(machine, thread))
}
