// The values of numbers that stand one after the other, stored in lent room.
#![tactic(auto)]

ghost use Rattle.std.specs.Prelude.{◌≡◌, ◌++◌, ◌≤◌, ◌<◌, ℕ, Bool, true, false, length, drop, map};
ghost use Rattle.leb128.specs.Reading.{limit, more_of, top_of, read_at};
ghost use Rattle.number_values.specs.Values.{value_of, next_of, values_from};

use leb128::Number;
use quick_numbers::read_number;

// A number as room holds it. Room of 64-bit numbers takes wide ones too, of 2^32 or more.
pub trait RoomNumber: Copy {
    ghost WIDE: { Bool };

    const WIDE: bool;

    ghost stored: { ℕ → Self };

    fn store(value: u64) -> Self
        requires { value < limit (more_of WIDE) (top_of WIDE) }
        ensures { result ≡ stored value };
}

impl RoomNumber for u32 {
    ghost WIDE = { false };

    const WIDE: bool = false;

    ghost stored = { λ n. n };

    fn store(value: u64) -> u32 {
        value as u32
    }
}

impl RoomNumber for u64 {
    ghost WIDE = { true };

    const WIDE: bool = true;

    ghost stored = { λ n. n };

    fn store(value: u64) -> u64 {
        value
    }
}

// The number at a place; 0 and the place itself where there is none. Inlined: with a call for each number a slip of short numbers takes
// about twice as long.
#[inline(always)]
fn number_or_zero(bytes: &[u8], at: usize, wide: bool) -> Number
    ensures value { result.value ≡ value_of (read_at (more_of wide) (top_of wide) bytes.now at) }
    ensures next { result.next ≡ next_of at (read_at (more_of wide) (top_of wide) bytes.now at) }
{
    read_number(bytes, at, wide).unwrap_or(Number { value: 0, next: at })
}

// Stores the values of n numbers from a place on in the first places of the room.
pub fn fill<T: RoomNumber>(bytes: &[u8], at: usize, room: &mut [T], n: usize)
    requires { n ≤ length room.old }
    ensures { room.new ≡ map T.stored (values_from (more_of T.WIDE) (top_of T.WIDE) bytes.now n at) ++ drop n room.old }
{
    let mut p = at;
    for j in 0..n {
        let number = number_or_zero(bytes, p, T::WIDE);
        room[j] = T::store(number.value);
        p = number.next;
    }
}
