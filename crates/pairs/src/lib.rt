// The byte ranges of some samples, chunk after chunk: one pass over the entries of stsc, stsz and the chunk offsets that they touch. Samples are named by their index,
// `from` up to, not including, `stop`. The functions that walk have a place by value, so that each use of the pairs is a loop of its own and no list of
// pairs is kept.
#![tactic(auto)]

pub mod listed;

ghost use Rattle.std.specs.Prelude.{◌≡◌, ◌||◌, eqb, leb, ◌+◌, ◌*◌, ◌-◌, ◌≤◌, ◌<◌, ◌^◌, length, get_or, take, drop};
ghost use Rattle.bigendian.specs.BigEndian.{u32_at};
ghost use Rattle.words.specs.Words.{numbers_in, words_in, sizes, width_of, offset_width, chunk_offsets};
ghost use Rattle.chunks.specs.Chunks.{per_chunk};
ghost use Rattle.lists.specs.Lists.{between};
ghost use Rattle.pairs.specs.Pairs.{pair_of};
ghost use Rattle.pairs.specs.Walks.{count_between, chunks_to, StartsAt, place_past, AtOnce, whole_end, whole_chunks, chunks_at_once, common_at_once, run_at, first_pair};

use bigendian::{after, u32_at};
use chunks::{ChunkCursor, pass, ready, seek};
use words::{bytes_between, chunk_offset, first_sum, is_long, number_in, width_of};

// A range of bytes of the file.
#[derive(Clone, Copy)]
pub struct Pair {
    pub offset: u64,
    pub length: u64,
}

// A place before a chunk: a cursor in stsc, the chunk's index, and the index of its first sample.
#[derive(Clone, Copy)]
pub struct ChunkPosition {
    pub cursor: ChunkCursor,
    pub chunk: u64,
    pub begin: u64,
}

// Before the chunk of the sample with an index.
pub fn start_place(stsc: &[u8], chunks: u32, from: u32) -> ChunkPosition
    requires { length stsc.now < 2 ^ 32 }
    ensures { StartsAt stsc.now chunks from result }
{
    let found = seek(stsc, chunks, from);
    let within = found.within;
    let cursor = found.cursor;
    ChunkPosition {
        cursor,
        chunk: found.chunk,
        begin: words::span(within, from) as u64,
    }
}

// Whether no sample below `stop` lies ahead.
pub fn is_past(p: ChunkPosition, stop: u32) -> bool
    ensures { result ≡ (eqb p.cursor.remaining 0 || leb stop p.begin) }
{
    let c = p.cursor;
    if c.remaining == 0 {
        return true;
    }
    stop as u64 <= p.begin
}

// The sizes of the samples of a chunk before the first one asked for, added. Most chunks have none, and then stsz isn't looked at.
fn bytes_before(stsz: &[u8], begin: u32, first: u32) -> u64
    ensures { (result ≡ between (sizes stsz.now) begin first) × (result ≤ (first - begin) * 4294967295) }
{
    if first <= begin {
        return 0;
    }
    bytes_between(stsz, begin, first)
}

// The pair of the chunk at a place.
pub fn pair_at(stsz: &[u8], offsets: &[u8], p: ChunkPosition, from: u32, stop: u32) -> Pair
    requires { (p.begin < stop) × ((pair_of from stop p.begin p.cursor.per (get_or (chunk_offsets offsets.now) p.chunk 0) (sizes stsz.now)).offset < 2 ^ 64) }
    ensures { result ≡ pair_of from stop p.begin p.cursor.per (get_or (chunk_offsets offsets.now) p.chunk 0) (sizes stsz.now) }
{
    let c = p.cursor;
    let per = c.per;
    let begin = p.begin;
    let end = (stop as u64).min(begin + per as u64) as u32;
    let first = from.max(begin as u32);
    let before = bytes_before(stsz, begin as u32, first);
    Pair {
        offset: chunk_offset(offsets, p.chunk) + before,
        length: bytes_between(stsz, first, end),
    }
}

// How many chunks begin no later than the sample with an index.
fn chunks_to(stsc: &[u8], chunks: u32, index: u32) -> u64
    requires { length stsc.now < 2 ^ 32 }
    ensures { result ≡ chunks_to (per_chunk stsc.now chunks) index }
{
    let found = seek(stsc, chunks, index);
    let chunk = found.chunk;
    let c = found.cursor;
    if c.remaining == 0 {
        return chunk;
    }
    chunk + 1
}

// How many pairs there are: one for each chunk that begins by the last sample, without those before the first sample's.
pub fn count_pairs(stsc: &[u8], chunks: u32, from: u32, stop: u32) -> u64
    requires { length stsc.now < 2 ^ 32 }
    ensures { result ≡ count_between stsc.now chunks from stop }
{
    if stop == 0 {
        return 0;
    }
    let begun = chunks_to(stsc, chunks, stop - 1);
    let found = seek(stsc, chunks, from);
    let skipped = found.chunk;
    if begun <= skipped {
        return 0;
    }
    begun - skipped
}

// Up to which sample chunks can be put at once: `stop`, but not past the last sample where the sizes are common, since from there on a size is 0.
fn whole_end(stsz: &[u8], stop: u32) -> u32
    ensures { (result ≤ stop) × ((u32_at stsz.now 12 ≡ 0 → ⊥) → result ≤ u32_at stsz.now 16) × (result ≡ whole_end stsz.now stop) }
{
    if u32_at(stsz, 12) == 0 {
        return stop;
    }
    u32_at(stsz, 16).min(stop)
}

// How many of `count` chunks, with `per` samples each, end by the sample `end`. There is a division only where they don't all.
fn whole_chunks(count: u64, per: u32, begin: u64, end: u32) -> u64
    ensures { (result ≤ count) × (result < 2 ^ 32) × ((result ≡ 0 → ⊥) → begin + result * per ≤ end) × (result ≡ whole_chunks count per begin end) }
{
    if 4294967295 < count {
        return 0;
    }
    if end as u64 <= begin {
        return 0;
    }
    let samples = end as u64 - begin;
    let each = per as u64;
    if count * each <= samples {
        return count;
    }
    samples / each
}

// How many offsets a table has.
fn offsets_there(offsets: &[u8]) -> u64
    ensures { result ≡ length (chunk_offsets offsets.now) }
{
    let part = after(offsets, 16);
    (part.len() / width_of(is_long(offsets))) as u64
}

// How many chunks of the run at a place are put at once: all that are asked for whole, or one.
pub fn chunks_at_once(stsz: &[u8], offsets: &[u8], p: ChunkPosition, from: u32, stop: u32) -> u64
    requires { (p.cursor.remaining ≡ 0 → ⊥) × (p.chunk < 2 ^ 63) }
    ensures { AtOnce stsz.now offsets.now from stop p result × (result ≡ chunks_at_once stsz.now offsets.now from stop p) }
{
    let c = p.cursor;
    let count = c.remaining;
    let begin = p.begin;
    if count == 1 {
        return 1;
    }
    if begin < from as u64 {
        return 1;
    }
    let n = whole_chunks(count, c.per, begin, whole_end(stsz, stop));
    if n == 0 {
        return 1;
    }
    if offsets_there(offsets) < p.chunk + n {
        return 1;
    }
    n
}

// The same where the sizes are common; with listed sizes one.
pub fn common_at_once(stsz: &[u8], offsets: &[u8], p: ChunkPosition, from: u32, stop: u32) -> u64
    requires { (p.cursor.remaining ≡ 0 → ⊥) × (p.chunk < 2 ^ 63) }
    ensures { AtOnce stsz.now offsets.now from stop p result × ((result ≡ 1 → ⊥) → u32_at stsz.now 12 ≡ 0 → ⊥) × (result ≡ common_at_once stsz.now offsets.now from stop p) }
{
    if u32_at(stsz, 12) == 0 {
        return 1;
    }
    chunks_at_once(stsz, offsets, p, from, stop)
}

// What whole chunks of a run have in common: whether their offsets have 64 bits, how many samples each has, whether the sizes of these are listed, and if
// not, how many bytes each has.
#[derive(Clone, Copy)]
pub struct WholeRun {
    pub long: bool,
    pub listed: bool,
    pub per: u32,
    pub bytes: u64,
}

// What the chunks of the run at a place have in common.
pub fn run_at(stsz: &[u8], offsets: &[u8], p: ChunkPosition) -> WholeRun
    ensures { result ≡ run_at stsz.now offsets.now p }
{
    let c = p.cursor;
    let per = c.per;
    let each = u32_at(stsz, 12);
    WholeRun {
        long: is_long(offsets),
        listed: each == 0,
        per,
        bytes: per as u64 * each as u64,
    }
}

// The offsets of n chunks from a place on.
pub fn run_offsets<'a>(offsets: &'a [u8], p: ChunkPosition, n: u64) -> &'a [u8]
    requires { p.chunk + n ≤ length (chunk_offsets offsets.now) }
    ensures { numbers_in (offset_width offsets.now) result.now ≡ take n (drop p.chunk (chunk_offsets offsets.now)) }
{
    let part = after(offsets, 16);
    let width = width_of(is_long(offsets));
    let start = p.chunk as usize * width;
    let end = start + n as usize * width;
    &part[start..end]
}

// The sizes that are listed from a place's first sample on.
pub fn run_sizes<'a>(stsz: &'a [u8], p: ChunkPosition) -> &'a [u8]
    requires { p.begin < 2 ^ 32 }
    ensures { result.now ≡ drop (p.begin * 4) (drop 20 stsz.now) }
{
    after(after(stsz, 20), p.begin as usize * 4)
}

// The pair of the first of some whole chunks, by their offsets and the sizes from its first sample on.
pub fn first_pair(offsets: &[u8], sizes: &[u8], r: WholeRun) -> Pair
    ensures { result ≡ first_pair r (numbers_in (width_of r.long) offsets.now) (words_in sizes.now) }
{
    let offset = number_in(offsets, r.long, 0);
    if r.listed {
        let length = first_sum(sizes, r.per);
        return Pair { offset, length };
    }
    Pair {
        offset,
        length: r.bytes,
    }
}

// Before the chunk that is n further on in the same run.
pub fn place_past(stsc: &[u8], chunks: u32, p: ChunkPosition, n: u64) -> ChunkPosition
    requires { (p.chunk + n < 2 ^ 64) × (p.begin < 2 ^ 32) × ((n ≡ 1 → ⊥) → p.begin + n * p.cursor.per < 2 ^ 32) }
    ensures { result ≡ place_past stsc.now chunks n p }
{
    let c = p.cursor;
    let per = c.per;
    let chunk = p.chunk;
    let begin = p.begin;
    ChunkPosition {
        cursor: ready(stsc, chunks, pass(c, n)),
        chunk: chunk + n,
        begin: begin + n * per as u64,
    }
}
