// The two numbers of a pair as a slip writes them: measured, and written.
#![tactic(auto)]

ghost use Rattle.std.specs.Prelude.{◌≡◌, ◌||◌, [], ◌∷◌, ◌+◌, ◌≤◌, ◌<◌, ◌^◌, length};
ghost use Rattle.slip_head.specs.Bytes.{any_wide};
ghost use Rattle.pair_bytes.specs.Measures.{pair_bytes, measured_of, Wrote};

use leb128::{number_len, store_number};
use pairs::Pair;

// How many bytes some pairs are written in, and whether one of their numbers is 2^32 or more.
#[derive(Clone, Copy)]
pub struct Measured {
    pub bytes: usize,
    pub wide: bool,
}

fn is_wide(q: Pair) -> bool
    ensures { result ≡ any_wide (q.offset ∷ q.length ∷ []) }
{
    if 4294967296 <= q.offset {
        return true;
    }
    4294967296 <= q.length
}

pub fn measure_pair(q: Pair) -> Measured
    ensures { result ≡ measured_of (q ∷ []) }
{
    let first = number_len(q.offset);
    let second = number_len(q.length);
    Measured {
        bytes: first + second,
        wide: is_wide(q),
    }
}

// Of the pairs of both.
pub fn both(a: Measured, b: Measured) -> Measured
    requires { a.bytes + b.bytes < 2 ^ 64 }
    ensures { result ≡ record { bytes = a.bytes + b.bytes; wide = a.wide || b.wide } }
{
    let bytes = a.bytes + b.bytes;
    if a.wide {
        return Measured { bytes, wide: true };
    }
    Measured {
        bytes,
        wide: b.wide,
    }
}

// Writes a pair's two numbers from a place on, where they fit.
pub fn write_pair(q: Pair, out: &mut [u8], at: usize) -> usize
    requires { at + length (pair_bytes (q ∷ [])) ≤ length out.old }
    ensures { Wrote (q ∷ []) out.old at result out.new }
{
    let middle = store_number(out, at, q.offset);
    store_number(out, middle, q.length)
}
