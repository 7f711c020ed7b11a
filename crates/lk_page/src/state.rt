//! A lock after the last move that was played, as a page sees it.

ghost use Rattle.std.specs.Prelude.{◌≡◌, ◌+◌, ◌<◌, ◌≤◌, ◌++◌, length};
ghost use Rattle.lk_locks.specs.Holding.{as_holding};
ghost use Rattle.lk_locks.specs.Play.{holding_in, waiting_in};
ghost use Rattle.lk_page.specs.Layout.{with_zeros, holding_code, holder_list, thread_bytes};
ghost use Rattle.lk_page.specs.Layout.{threads_bytes, stop_numbers, bytes_of_state, bytes_of_fault};

use crate::codes::{due_code, lock_code, refusal_step};
use crate::layout::{put_bytes, put_u32s, put_u64, put_u64s, put_zeros};
use crate::next::allowed_calls;
use crate::owned::record_of;
use crate::told::Stopped;
use arrayvec::ArrayVec;
use lk_locks::{Holders, Machine, Refusal, Tracker, copy_of};
use lk_search::phase_code;
use lk_trace::refusal_number;
use lk_words::{WordArray, Words};

/// The number of bytes of a state.
pub const STATE_BYTES: usize = 2304;

const THREAD_BYTES: usize = 16;

// The bytes of the words, and of the zeros after them.
const WORDS_BYTES: usize = 1088;

/// The bytes of a fault: what is wrong with the text, and in which line.
#[tactic(auto, unfolding(crate::specs::Layout::bytes_of_fault))]
pub fn fault_bytes(code: u32, line: u32) -> ArrayVec<u8, 2304>
    ensures bytes { result.items ≡ bytes_of_fault code line }
    ensures size { length result.items ≡ 2304 }
{
    let mut out = ArrayVec::new();
    put_u32s(&mut out, &[2, code, line]);
    put_zeros(&mut out, STATE_BYTES - 12);
    out
}

// A thread, or zeros if the lock does not have it.
fn put_place(out: &mut ArrayVec<u8, 2304>, machine: &Machine<WordArray>, thread: u8)
    requires few { thread < 64 }
    requires room { length out.old.items + 16 ≤ 2304 }
    ensures bytes { out.new.items ≡ out.old.items ++ thread_bytes machine.now thread }
    ensures size { length out.new.items ≡ length out.old.items + 16 }
{
    if thread >= machine.threads() {
        put_zeros(out, THREAD_BYTES);
        return;
    }
    let (code, number) = phase_code(machine.phase(thread));
    let due = due_code(machine.next_step(thread));
    let calls = allowed_calls(machine, thread);
    let (next, locked, name) = record_of(machine.kind(), machine.words().bits(), thread);
    put_bytes(out, &[code, due, calls, next, locked, name, 0, 0]);
    put_u64(out, number);
}

// All threads, and zeros for those that the lock does not have.
fn put_threads(out: &mut ArrayVec<u8, 2304>, machine: &Machine<WordArray>)
    requires room { length out.old.items + 1024 ≤ 2304 }
    ensures bytes { out.new.items ≡ out.old.items ++ threads_bytes machine.now 0 64 }
    ensures size { length out.new.items ≡ length out.old.items + 1024 }
{
    for thread in 0..64 {
        put_place(out, machine, thread);
    }
}

// A list of threads, and zeros up to 64 bytes.
fn put_list(out: &mut ArrayVec<u8, 2304>, threads: &[u8])
    requires room { length out.old.items + 64 ≤ 2304 }
    requires few { length threads.now ≤ 64 }
    ensures bytes { out.new.items ≡ out.old.items ++ with_zeros 64 threads.now }
    ensures size { length out.new.items ≡ length out.old.items + 64 }
{
    put_bytes(out, threads);
    put_zeros(out, 64 - threads.len());
}

// The number of those who hold a lock so, and their list.
fn holder_list(holders: &Holders) -> (u8, ArrayVec<u8, 64>)
    ensures code { result.0 ≡ holding_code (as_holding holders.now) }
    ensures list { result.1.items ≡ holder_list (as_holding holders.now) }
{
    match holders {
        Holders::Nobody => (0, ArrayVec::new()),
        Holders::Holder(t) => (1, copy_of(&[*t])),
        Holders::Readers(readers) => (2, copy_of(readers.as_slice())),
        Holders::Writer(t) => (3, copy_of(&[*t])),
    }
}

// The answer, the refusal, its line, and the due step that it names.
fn stop_numbers(refused: Option<(u32, Refusal)>) -> [u32; 4]
    ensures { result ≡ stop_numbers refused }
{
    match refused {
        Some((line, refusal)) => [
            1,
            u32::from(refusal_number(refusal)),
            line,
            u32::from(refusal_step(refusal)),
        ],
        None => [0; 4],
    }
}

/// The bytes of a lock's state, of a schedule that has `moves` moves.
#[tactic(auto, unfolding(crate::specs::Layout::bytes_of_state))]
pub fn state_bytes(lock: &Tracker<WordArray>, moves: u32, stopped: Stopped) -> ArrayVec<u8, 2304>
    ensures bytes { result.items
        ≡ bytes_of_state moves stopped.count stopped.refused lock.now.state (holding_in lock.now)
        (waiting_in lock.now) }
    ensures size { length result.items ≡ 2304 }
{
    let mut out = ArrayVec::new();
    let (code, holders) = holder_list(&lock.holders());
    let queue = lock.queue();
    let holder_slice = holders.as_slice();
    let queue_slice = queue.as_slice();
    let machine = lock.machine();
    let words = machine.words().as_slice();
    let bits = machine.words().bits();
    let kind = lock_code(lock.kind());
    put_u32s(&mut out, &stop_numbers(stopped.refused));
    put_u32s(
        &mut out,
        &[
            kind as u32,
            machine.threads() as u32,
            bits as u32,
            stopped.count,
            moves,
            words.len() as u32,
            code as u32,
            holder_slice.len() as u32,
            queue_slice.len() as u32,
            0,
            0,
            0,
        ],
    );
    put_list(&mut out, holder_slice);
    put_list(&mut out, queue_slice);
    put_threads(&mut out, machine);
    put_u64s(&mut out, words);
    put_zeros(&mut out, WORDS_BYTES - 8 * words.len());
    out
}
