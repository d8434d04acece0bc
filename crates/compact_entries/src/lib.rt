// The entries of stts and stsc written with the fewest that say the same.
#![tactic(auto)]

ghost use Rattle.std.specs.Prelude.{◌≡◌, ◌^◌, ◌<◌, length};
ghost use Rattle.lists.specs.Entries.{rows_of};
ghost use Rattle.byte_writing.specs.Bytes.{joined, Fits, Wrote};
ghost use Rattle.compact_entries.specs.Entries.{with_count, compact_runs, same_deal, compact_deals};

use bigendian::{after, u32_at};
use byte_writing::{front, put_bytes, put_u32};

// Writes an entry of stts with that count and returns the offset past it.
fn put_run(out: &mut [u8], at: usize, count: u64, entry: &[u8]) -> usize
    requires { Fits (with_count count entry.now) out.old at }
    ensures { Wrote (with_count count entry.now) out.old at result out.new }
{
    put_u32(out, at, count);
    put_bytes(front(after(entry, 4), 4), out, at + 4)
}

// Writes the entries of stts in a part, neighbours with the same duration as one, and returns the offset past them. The counts are added in
// 64 bits; a part below 2^32 bytes cannot overflow them.
pub fn put_runs(part: &[u8], out: &mut [u8], at: usize) -> usize
    requires { (length part.now < 2 ^ 32) × Fits (joined (compact_runs (rows_of 8 part.now))) out.old at }
    ensures { Wrote (joined (compact_runs (rows_of 8 part.now))) out.old at result out.new }
{
    if part.len() < 8 {
        return at;
    }
    let mut e = &part[..8];
    let mut count = u32_at(e, 0) as u64;
    let mut t = &part[8..];
    let mut k = at;
    while 8 <= t.len() {
        let x = &t[..8];
        if u32_at(e, 4) == u32_at(x, 4) {
            count += u32_at(x, 0) as u64;
        } else {
            k = put_run(out, k, count, e);
            count = u32_at(x, 0) as u64;
            e = x;
        }
        t = &t[8..];
    }
    put_run(out, k, count, e)
}

// Whether two entries of stsc have the same samples per chunk and the same description ID.
fn same_deal(e: &[u8], x: &[u8]) -> bool
    ensures { result ≡ same_deal e.now x.now }
{
    if u32_at(e, 4) != u32_at(x, 4) {
        return false;
    }
    u32_at(e, 8) == u32_at(x, 8)
}

// Writes the entries of stsc in a part without those that repeat the one before, and returns the offset past them.
pub fn put_deals(part: &[u8], out: &mut [u8], at: usize) -> usize
    requires { Fits (joined (compact_deals (rows_of 12 part.now))) out.old at }
    ensures { Wrote (joined (compact_deals (rows_of 12 part.now))) out.old at result out.new }
{
    if part.len() < 12 {
        return at;
    }
    let mut e = &part[..12];
    let mut k = put_bytes(e, out, at);
    let mut t = &part[12..];
    while 12 <= t.len() {
        let x = &t[..12];
        if !same_deal(e, x) {
            k = put_bytes(x, out, k);
            e = x;
        }
        t = &t[12..];
    }
    k
}
