//! The simple read-write lock: one critical section of its monitor, on two words: the count of the
//! readers, and the writer's flag.
//!
//! After Herlihy and Shavit, The Art of Multiprocessor Programming, chapter 8,
//! "SimpleReadWriteLock". Each poll is one section. Different here: a writer waits while the reader
//! count is not 0 or the flag is set, and then sets the flag; signals are not modelled, and a
//! thread that waits may poll at any time; the count has B bits; a writer may downgrade.

ghost use Rattle.std.specs.Prelude.{◌≡◌, ◌<◌, ◌≤◌, ◌^◌, List, ℕ, IfSome, slice_index};
ghost use Rattle.lk_locks.specs.rw_simple.{step};
ghost use Rattle.lk_locks.specs.invariants.read_write.{IsSection};

use crate::entries::Added::{ActAndReturn, Nothing};
use crate::read_write::Section;
use crate::{Op, Outcome, Phase};
use lk_words::{greatest_of, sum};

/// Returns the section of a thread in this phase that finds these words of `bits` bits: word 0
/// counts the readers, and word 1 is the flag. In the contract `step` is the definition of
/// `specs/rw_simple.antt`.
#[tactic(auto, using(crate::proofs::Words::one_fits))]
#[inline(always)]
pub fn section(bits: u8, readers: u64, flag: u64, phase: Phase) -> Section
    requires least { 2 ≤ bits }
    requires most { bits ≤ 64 }
    ensures does { (ws : List ℕ) (t : ℕ) → slice_index ws 0 ≡ readers → slice_index ws 1 ≡ flag
        → IsSection result ws t (step bits ws t phase) }
    ensures first { IfSome result.first (λ first. (first.0 ≡ 0) × (first.1 < 2 ^ bits)) }
    ensures other { IfSome result.other (λ other. (other.0 ≡ 1) × (other.1 < 2 ^ bits)) }
{
    use Outcome::{Entered, Left, Waits};
    use Phase::{Idle, LeaveRead, LeaveWrite, Reading, TryDowngrade, TryRead, TryWrite, Writing};
    match phase {
        TryRead if flag == 0 => {
            let readers = sum(bits, readers, 1);
            let next = (Reading, Entered, ActAndReturn(Op::ReadLock));
            Section::new(Some((0, readers)), None, next)
        }
        // adding 2^B - 1 subtracts one modulo 2^B, without a case for 0
        LeaveRead => {
            let readers = sum(bits, readers, greatest_of(bits));
            let next = (Idle, Left, ActAndReturn(Op::ReadUnlock));
            Section::new(Some((0, readers)), None, next)
        }
        TryWrite if readers == 0 && flag == 0 => {
            let next = (Writing, Entered, ActAndReturn(Op::WriteLock));
            Section::new(None, Some((1, 1)), next)
        }
        LeaveWrite => {
            let next = (Idle, Left, ActAndReturn(Op::WriteUnlock));
            Section::new(None, Some((1, 0)), next)
        }
        // both in one section, so that no writer comes in between
        TryDowngrade => {
            let readers = sum(bits, readers, 1);
            let next = (Reading, Entered, ActAndReturn(Op::Downgrade));
            Section::new(Some((0, readers)), Some((1, 0)), next)
        }
        // a failed poll; in a phase without a step the machine refuses the move
        _ => Section::new(None, None, (phase, Waits, Nothing)),
    }
}
