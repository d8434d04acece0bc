// Big-endian numbers at any place of a slice, and the part that follows a place. A byte past the end counts as 0.
#![tactic(auto)]

ghost use Rattle.std.specs.Prelude.{◌≡◌, ◌+◌, ◌*◌, ◌^◌, ◌<◌, ◌≤◌, length, get_or, drop};
ghost use Rattle.std.specs.Int.Signed.{mag};
ghost use Rattle.bigendian.specs.BigEndian.{be_at, u16_at, u32_at, u64_at, signed32, i32_at};

pub fn byte_at(s: &[u8], at: usize) -> u8
    ensures { result ≡ get_or s.now at 0 }
{
    s.get(at).copied().unwrap_or(0)
}

// The three tests subtract, since a sum with `at` can wrap. The slow way is lent `&s[..]`, made only where it is called:
// with `s` the fast way too would store the slice on the stack.
pub fn u16_at(s: &[u8], at: usize) -> u16
    ensures { result ≡ u16_at s.now at }
{
    if at <= s.len() && 2 <= s.len() - at {
        return whole16(s, at);
    }
    number_at(&s[..], at, 2) as u16
}

pub fn u32_at(s: &[u8], at: usize) -> u32
    ensures { result ≡ u32_at s.now at }
{
    if at <= s.len() && 4 <= s.len() - at {
        return whole32(s, at);
    }
    number_at(&s[..], at, 4) as u32
}

pub fn u64_at(s: &[u8], at: usize) -> u64
    ensures { result ≡ u64_at s.now at }
{
    if at <= s.len() && 8 <= s.len() - at {
        return whole64(s, at);
    }
    number_at(&s[..], at, 8)
}

// The bound follows from the equation; callers add small numbers and need it.
pub fn i32_at(s: &[u8], at: usize) -> i64
    ensures { (result ≡ i32_at s.now at) × (mag result < 2 ^ 31) }
{
    i64::from(u32_at(s, at).cast_signed())
}

// What follows the first n bytes; nothing where there are no more.
pub fn after(s: &[u8], n: usize) -> &[u8]
    ensures { result.now ≡ drop n s.now }
{
    s.get(n..).unwrap_or(&s[..0])
}

// The slow way, byte by byte. It calls itself: LLVM inlines no such function, so the three above stay small enough to
// be inlined.
fn number_at(s: &[u8], at: usize, width: usize) -> u64
    requires { width ≤ 8 }
    ensures is { result ≡ be_at width s.now at }
    ensures fits { result < 256 ^ width }
{
    if s.len() <= at {
        return 0;
    }
    if width == 0 {
        return 0;
    }
    let last = width - 1;
    number_at(s, at, last) * 256 + byte_at(s, at + last) as u64
}

fn whole16(s: &[u8], at: usize) -> u16
    requires { at + 2 ≤ length s.now }
    ensures { result ≡ u16_at s.now at }
{
    joined2(s[at], s[at + 1])
}

// For a loop that has tested the length: no slow way stands beside it.
pub fn whole32(s: &[u8], at: usize) -> u32
    requires { at + 4 ≤ length s.now }
    ensures { result ≡ u32_at s.now at }
{
    joined4(s[at], s[at + 1], s[at + 2], s[at + 3])
}

// Two halves, each a sum: LLVM makes them one load and one byte swap. By `from_be_bytes` a step takes nearly half as many instructions again.
pub fn whole64(s: &[u8], at: usize) -> u64
    requires { at + 8 ≤ length s.now }
    ensures { result ≡ u64_at s.now at }
{
    whole32(s, at) as u64 * 4294967296 + whole32(s, at + 4) as u64
}

fn joined2(a: u8, b: u8) -> u16
    ensures { result ≡ a * 256 + b }
{
    a as u16 * 256 + b as u16
}

fn joined4(a: u8, b: u8, c: u8, d: u8) -> u32
    ensures { result ≡ ((a * 256 + b) * 256 + c) * 256 + d }
{
    ((a as u32 * 256 + b as u32) * 256 + c as u32) * 256 + d as u32
}
