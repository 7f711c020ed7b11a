//! Lets the threads of a lock finish: moves that are no calls for the lock and no failed polls are
//! made, one after another, until all threads are idle.

ghost use Rattle.std.specs.Prelude.{◌≡◌, ◌<◌, ◌≤◌, length};
ghost use Rattle.lk_locks.specs.Progress.{IsAtRest};
ghost use Rattle.lk_page.specs.Finishing.{AreMade, IsFinishingNumber, code_of};

use lk_locks::{Machine, Move, Tracker};
use lk_trace::move_number;
use lk_words::WordArray;

/// The number of a thread's finishing move, and 0 if it has none.
pub fn finishing_number(lock: &Machine<WordArray>, thread: u8) -> u64
    requires { thread < length lock.now.phases }
    ensures { IsFinishingNumber lock.now thread result }
{
    lock.finishing_move_of(thread)
        .map_or(0, |action| u64::from(move_number(action)))
}

// The code of a move in a run.
fn code_of(thread: u8, action: Move) -> u64
    ensures { result ≡ code_of (thread, action) }
{
    u64::from(thread) + 512 * u64::from(move_number(action))
}

/// Makes finishing moves until all threads are idle, or `codes` is full. Writes their codes into
/// its first places, and returns how many moves they are.
#[tactic(auto, using(crate::proofs::Resting::making))]
pub fn make_finishing(lock: &mut Tracker<WordArray>, codes: &mut [u64]) -> usize
    ensures made { AreMade lock.old.state lock.new.state result codes.old codes.new }
    ensures few { result ≤ length codes.old }
    ensures rests { result < length codes.old → IsAtRest lock.new.state }
{
    let mut count = 0;
    while count < codes.len() {
        let Some((thread, action)) = lock.finishing_move() else {
            break;
        };
        codes[count] = code_of(thread, action);
        let _made = lock.play(thread, action);
        count += 1;
    }
    count
}
