//! Numbers as text. `itoa` writes their digits, and a thread's number where it belongs: out of a
//! buffer it would have to be copied, which takes 12 to 40 % more instructions for a move.

ghost use Rattle.std.specs.Prelude.{◌≡◌, ◌+◌, ◌≤◌, ◌++◌, ◌∷◌, decimal, length, take};

use crate::report::text::put_block;
use itoa::write_digits;

/// Puts a count at the front of a place, and returns where it ends.
pub fn put_count(place: &mut [u8], count: u32) -> usize
    requires { 16 ≤ length place.old }
    ensures text { take result place.new ≡ decimal count }
    ensures most { result ≤ 16 }
{
    let mut digits = [0; 32];
    let start = write_digits(count as u64, &mut digits, 16);
    put_block::<16>(place, 0, &digits[start..], 16 - start)
}

/// Puts a thread's number into a place, from `at` on, and returns where it ends.
pub fn put_number(place: &mut [u8], at: usize, thread: u8) -> usize
    requires { at + 3 ≤ length place.old }
    ensures text { take result place.new ≡ take at place.old ++ decimal thread }
    ensures most { result ≤ at + 3 }
{
    let end = at + width(thread);
    write_digits(thread as u64, place, end);
    end
}

/// A byte and the digits of a thread's number, and how long that is.
pub fn thread_block(lead: u8, thread: u8) -> ([u8; 4], usize)
    ensures text { take result.1 result.0 ≡ lead ∷ decimal thread }
    ensures fits { result.1 ≤ 4 }
{
    let mut block = [lead; 4];
    let end = put_number(&mut block, 1, thread);
    (block, end)
}

/// The number of digits of a thread's number.
pub fn width(thread: u8) -> usize
    ensures digits { result ≡ length (decimal thread) }
    ensures few { result ≤ 3 }
{
    if thread >= 100 {
        3
    } else if thread >= 10 {
        2
    } else {
        1
    }
}
