//! Numbers as the bytes that a page reads: little-endian, one after the other.

ghost use Rattle.std.specs.Prelude.{◌≡◌, ◌+◌, ◌*◌, ◌≤◌, ◌++◌, length, replicate};
ghost use Rattle.std.specs.Int.{to_le_bytes, w32, w64};
ghost use Rattle.std.specs.List.{flat_map};

use arrayvec::ArrayVec;

/// Appends bytes, for which there is room.
pub fn put_bytes<const N: usize>(out: &mut ArrayVec<u8, N>, bytes: &[u8])
    requires { length out.old.items + length bytes.now ≤ N }
    ensures bytes { out.new.items ≡ out.old.items ++ bytes.now }
    ensures size { length out.new.items ≡ length out.old.items + length bytes.now }
{
    let _fits = out.try_extend_from_slice(bytes);
}

/// Appends a number of 8 bytes.
pub fn put_u64<const N: usize>(out: &mut ArrayVec<u8, N>, number: u64)
    requires { length out.old.items + 8 ≤ N }
    ensures bytes { out.new.items ≡ out.old.items ++ to_le_bytes w64 number }
    ensures size { length out.new.items ≡ length out.old.items + 8 }
{
    put_bytes(out, &u64::to_le_bytes(number));
}

/// Appends numbers of 4 bytes.
pub fn put_u32s<const N: usize>(out: &mut ArrayVec<u8, N>, numbers: &[u32])
    requires { length out.old.items + 4 * length numbers.now ≤ N }
    ensures bytes { out.new.items ≡ out.old.items ++ flat_map (to_le_bytes w32) numbers.now }
    ensures size { length out.new.items ≡ length out.old.items + 4 * length numbers.now }
{
    for number in numbers {
        put_bytes(out, &u32::to_le_bytes(*number));
    }
}

/// Appends numbers of 8 bytes.
pub fn put_u64s<const N: usize>(out: &mut ArrayVec<u8, N>, numbers: &[u64])
    requires { length out.old.items + 8 * length numbers.now ≤ N }
    ensures bytes { out.new.items ≡ out.old.items ++ flat_map (to_le_bytes w64) numbers.now }
    ensures size { length out.new.items ≡ length out.old.items + 8 * length numbers.now }
{
    for number in numbers {
        put_u64(out, *number);
    }
}

/// Appends so many zeros.
pub fn put_zeros<const N: usize>(out: &mut ArrayVec<u8, N>, count: usize)
    requires { length out.old.items + count ≤ N }
    ensures bytes { out.new.items ≡ out.old.items ++ replicate count 0 }
    ensures size { length out.new.items ≡ length out.old.items + count }
{
    for _ in 0..count {
        out.push(0);
    }
}
