// Numbers of at most four groups, read without a loop. What they read is what the crate leb128 reads, so loops over many numbers take this way first.
#![tactic(auto)]

ghost use Rattle.std.specs.Prelude.{◌≡◌, ◌<◌, length, get_or};
ghost use Rattle.leb128.specs.Reading.{more_of, top_of, read_at};
ghost use Rattle.quick_numbers.specs.Quick.{quick_of};

use leb128::{Number, NumberFault, number_at};

fn byte_at(bytes: &[u8], at: usize) -> u64
    requires { at < length bytes.now }
    ensures { (result ≡ get_or bytes.now at 0) × (result < 256) }
{
    u64::from(bytes[at])
}

// The number of at most four groups at a place, where four bytes are there. The place past it is told by tests alone, so that a loop goes on without
// waiting for the number.
#[inline(always)]
fn quick_at(bytes: &[u8], at: usize) -> Option<Number>
    ensures { result ≡ quick_of bytes.now at }
{
    if bytes.len() < 4 || bytes.len() - 4 < at {
        return None;
    }
    let b0 = byte_at(bytes, at);
    if b0 < 128 {
        return Some(Number {
            value: b0,
            next: at + 1,
        });
    }
    let b1 = byte_at(bytes, at + 1);
    if b1 == 0 {
        return None;
    }
    if b1 < 128 {
        return Some(Number {
            value: b0 - 128 + 128 * b1,
            next: at + 2,
        });
    }
    let b2 = byte_at(bytes, at + 2);
    if b2 == 0 {
        return None;
    }
    if b2 < 128 {
        return Some(Number {
            value: b0 - 128 + 128 * (b1 - 128 + 128 * b2),
            next: at + 3,
        });
    }
    let b3 = byte_at(bytes, at + 3);
    if b3 == 0 || 128 <= b3 {
        return None;
    }
    Some(Number {
        value: b0 - 128 + 128 * (b1 - 128 + 128 * (b2 - 128 + 128 * b3)),
        next: at + 4,
    })
}

// The number at a place, as `number_at` reads it, by the quick way where that has it.
#[inline(always)]
pub fn read_number(bytes: &[u8], at: usize, wide: bool) -> Result<Number, NumberFault>
    ensures { result ≡ read_at (more_of wide) (top_of wide) bytes.now at }
{
    match quick_at(bytes, at) {
        Some(number) => Ok(number),
        None => number_at(bytes, at, wide),
    }
}
