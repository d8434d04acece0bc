// Tables of numbers, read as they stand in the file: stsz, stco or co64, and stss. A sample and a chunk are named by their index from 0, a sync sample
// by its number from 1. Past the last entry a size and an offset are 0.
#![tactic(auto)]

ghost use Rattle.std.specs.Prelude.{◌≡◌, ◌+◌, ◌*◌, ◌-◌, ◌/◌, ◌^◌, ◌≤◌, ◌<◌, min, eqb, length, get_or, take};
ghost use Rattle.lists.specs.Lists.{sum, between};
ghost use Rattle.atoms.specs.Atoms.{kind_of};
ghost use Rattle.atoms.specs.Kinds.{co64};
ghost use Rattle.words.specs.Words.{numbers_in, words_in, sizes, size_head, width_of, chunk_offsets, syncs_agree, is_sync};

use atoms::kinds;
use bigendian::{after, u32_at, whole32, whole64};

// The bytes of a table of offsets or of sync samples before its entries, of stsz before its sizes, and of a number of 32 and of 64 bits.
pub const HEAD: usize = 16;

pub const SIZES_HEAD: usize = 20;

pub const WORD: usize = 4;

pub const LONG: usize = 8;

// The first n bytes; all where there are fewer.
fn front(s: &[u8], n: usize) -> &[u8]
    ensures { result.now ≡ take n s.now }
{
    s.get(..n).unwrap_or(s)
}

// The number of a part with an index.
fn word_at(part: &[u8], index: usize) -> u32
    ensures { result ≡ get_or (words_in part.now) index 0 }
{
    if index < part.len() / 4 {
        return whole32(part, index * 4);
    }
    0
}

// All numbers of a part, added. It has so few that the sum fits. Chunks of one or two samples are met without the loop.
pub fn sum_words(part: &[u8]) -> u64
    requires { length part.now ≤ 4294967295 * 4 }
    ensures { (result ≡ sum (words_in part.now)) × (result ≤ length part.now / 4 * 4294967295) }
{
    if part.len() == 4 {
        return u32_at(part, 0) as u64;
    }
    if part.len() == 8 {
        return u32_at(part, 0) as u64 + u32_at(part, 4) as u64;
    }
    let mut total: u64 = 0;
    for entry in part.chunks_exact(4) {
        total += u32_at(entry, 0) as u64;
    }
    total
}

// How far it is from one index to another; 0 where that is not further on.
pub fn span(from: u32, to: u32) -> u32
    ensures { result ≡ to - from }
{
    to.saturating_sub(from)
}

// The first `count` numbers of a part, added. The bound follows from the equation; callers need it to add more.
pub fn first_sum(part: &[u8], count: u32) -> u64
    ensures { (result ≡ sum (take count (words_in part.now))) × (result ≤ count * 4294967295) }
{
    sum_words(front(part, (count as usize) * 4))
}

// The numbers from one index up to, not including, another, added.
fn listed_between(part: &[u8], from: u32, to: u32) -> u64
    ensures { (result ≡ between (words_in part.now) from to) × (result ≤ (to - from) * 4294967295) }
{
    first_sum(after(part, (from as usize) * 4), to.saturating_sub(from))
}

// What the head of stsz says: the size that all samples have, or 0 where sizes are listed, and how many samples there are.
#[derive(Clone, Copy)]
pub struct SizeHead {
    pub common: u32,
    pub samples: u32,
}

// Read once, for the sizes of many samples.
pub fn size_head(stsz: &[u8]) -> SizeHead
    ensures { result ≡ size_head stsz.now }
{
    SizeHead {
        common: u32_at(stsz, 12),
        samples: u32_at(stsz, 16),
    }
}

// The size of a sample, by the table and its head.
pub fn size_by(stsz: &[u8], head: SizeHead, index: u32) -> u32
    requires { head ≡ size_head stsz.now }
    ensures { result ≡ get_or (sizes stsz.now) index 0 }
{
    if head.common == 0 {
        return word_at(after(stsz, SIZES_HEAD), index as usize);
    }
    if index < head.samples { head.common } else { 0 }
}

// The size of a sample.
pub fn size_of(stsz: &[u8], index: u32) -> u32
    ensures { result ≡ get_or (sizes stsz.now) index 0 }
{
    size_by(stsz, size_head(stsz), index)
}

// The sizes of the samples from one index up to, not including, another, added.
pub fn bytes_between(stsz: &[u8], from: u32, to: u32) -> u64
    ensures { (result ≡ between (sizes stsz.now) from to) × (result ≤ (to - from) * 4294967295) }
{
    let each = u32_at(stsz, 12);
    if each == 0 {
        return listed_between(after(stsz, SIZES_HEAD), from, to);
    }
    let end = to.min(u32_at(stsz, 16));
    end.saturating_sub(from) as u64 * each as u64
}

// All sizes, added, in a table so short that the sum fits.
pub fn all_bytes(stsz: &[u8]) -> u64
    requires { length stsz.now < 2 ^ 32 }
    ensures { (result ≡ sum (sizes stsz.now)) × (result ≤ length (sizes stsz.now) * 4294967295) }
{
    let every = u32_at(stsz, 12);
    if every == 0 {
        return sum_words(after(stsz, SIZES_HEAD));
    }
    u32_at(stsz, 16) as u64 * every as u64
}

// The sum; the largest number of 64 bits where it is above that.
pub fn saturating_sum(a: u64, b: u64) -> u64
    ensures { result ≡ min (a + b) 18446744073709551615 }
{
    a.saturating_add(b)
}

// Whether the numbers of a table of chunk offsets have 64 bits.
pub fn is_long(table: &[u8]) -> bool
    ensures { result ≡ eqb (kind_of table.now) co64 }
{
    u32_at(table, 4) == kinds::CO64
}

// The bytes of a number of 64 bits, or of 32.
pub fn width_of(long: bool) -> usize
    ensures { result ≡ width_of long }
{
    if long { LONG } else { WORD }
}

// The number of 64 bits of a part with an index.
fn long_at(part: &[u8], index: usize) -> u64
    ensures { result ≡ get_or (numbers_in 8 part.now) index 0 }
{
    if index < part.len() / LONG {
        return whole64(part, index * LONG);
    }
    0
}

// The number of a part with an index, where each has 64 bits, or 32.
pub fn number_in(part: &[u8], long: bool, index: usize) -> u64
    ensures { result ≡ get_or (numbers_in (width_of long) part.now) index 0 }
{
    if long {
        return long_at(part, index);
    }
    word_at(part, index) as u64
}

// The offset of a chunk.
pub fn chunk_offset(table: &[u8], index: u64) -> u64
    ensures { result ≡ get_or (chunk_offsets table.now) index 0 }
{
    number_in(after(table, HEAD), is_long(table), index as usize)
}

// Whether the numbers of stss rise strictly within 1 to the number of samples.
pub fn syncs_agree(stss: &[u8], samples: u32) -> bool
    ensures { result ≡ syncs_agree stss.now samples }
{
    let mut last: u32 = 0;
    for entry in after(stss, HEAD).chunks_exact(4) {
        let number = u32_at(entry, 0);
        if number <= last {
            return false;
        }
        last = number;
    }
    last <= samples
}

// Whether a sample is sync: its number is listed, or there is no stss.
pub fn is_sync(stss: &[u8], number: u32) -> bool
    ensures { result ≡ is_sync stss.now number }
{
    if stss.len() == 0 {
        return true;
    }
    for entry in after(stss, HEAD).chunks_exact(4) {
        if u32_at(entry, 0) == number {
            return true;
        }
    }
    false
}
