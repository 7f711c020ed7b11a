//! The FIFO read-write lock: one critical section of its monitor, on three words: the counts of the
//! readers that entered and that left, and the writer's flag.
//!
//! After Herlihy and Shavit, The Art of Multiprocessor Programming, chapter 8, "FifoReadWriteLock".
//! Each poll is one section. Different here: a reader waits until the flag is clear, and only then
//! adds one to `readAcquires`; a writer waits until the flag is clear, and then sets it; the counts
//! have B bits and wrap; signals are not modelled; a writer may downgrade. Threads that wait for a
//! clear flag enter in any order.

ghost use Rattle.std.specs.Prelude.{◌≡◌, ◌<◌, ◌≤◌, ◌^◌, List, ℕ, IfSome, slice_index};
ghost use Rattle.lk_locks.specs.rw_fifo.{step};
ghost use Rattle.lk_locks.specs.invariants.read_write.{IsSection};

use crate::entries::Added::{ActAndReturn, AnnouncedWrite, Announcement, Nothing};
use crate::read_write::Section;
use crate::{Op, Outcome, Phase};
use lk_words::sum;

/// Returns the section of a thread in this phase that finds these words of `bits` bits: words 0 and
/// 1 count the readers that entered and that left, and word 2 is the flag. In the contract `step`
/// is the definition of `specs/rw_fifo.antt`.
#[tactic(auto, using(crate::proofs::Words::one_fits))]
#[inline(always)]
pub fn section(bits: u8, acquires: u64, releases: u64, flag: u64, phase: Phase) -> Section
    requires least { 2 ≤ bits }
    requires most { bits ≤ 64 }
    ensures does { (ws : List ℕ) (t : ℕ) → slice_index ws 0 ≡ acquires
        → slice_index ws 1 ≡ releases → slice_index ws 2 ≡ flag
        → IsSection result ws t (step bits ws t phase) }
    ensures first { IfSome result.first (λ first. (first.0 ≡ 0) × (first.1 < 2 ^ bits)) }
    ensures other { IfSome result.other
        (λ other. (0 < other.0) × (other.0 < 3) × (other.1 < 2 ^ bits)) }
{
    use Outcome::{Entered, Left, Moved, Waits};
    use Phase::{AwaitReaders, Idle, LeaveRead, LeaveWrite, Reading, Writing};
    use Phase::{TryDowngrade, TryRead, TryWrite};
    // No reader is inside: as many left as entered. Both counts wrap, but there are fewer threads
    // than a count has values.
    let are_gone = acquires == releases;
    match phase {
        TryRead if flag == 0 => {
            let acquires = sum(bits, acquires, 1);
            let next = (Reading, Entered, ActAndReturn(Op::ReadLock));
            Section::new(Some((0, acquires)), None, next)
        }
        LeaveRead => {
            let releases = sum(bits, releases, 1);
            let next = (Idle, Left, ActAndReturn(Op::ReadUnlock));
            Section::new(None, Some((1, releases)), next)
        }
        TryWrite if flag == 0 && are_gone => {
            Section::new(None, Some((2, 1)), (Writing, Entered, AnnouncedWrite))
        }
        // the flag is set while readers are inside, so that no later one enters before this writer
        TryWrite if flag == 0 => {
            Section::new(None, Some((2, 1)), (AwaitReaders, Moved, Announcement))
        }
        AwaitReaders if are_gone => {
            Section::new(None, None, (Writing, Entered, ActAndReturn(Op::WriteLock)))
        }
        LeaveWrite => {
            let next = (Idle, Left, ActAndReturn(Op::WriteUnlock));
            Section::new(None, Some((2, 0)), next)
        }
        // both in one section, so that no writer comes in between
        TryDowngrade => {
            let acquires = sum(bits, acquires, 1);
            let next = (Reading, Entered, ActAndReturn(Op::Downgrade));
            Section::new(Some((0, acquires)), Some((2, 0)), next)
        }
        // a failed poll; in a phase without a step the machine refuses the move
        _ => Section::new(None, None, (phase, Waits, Nothing)),
    }
}
