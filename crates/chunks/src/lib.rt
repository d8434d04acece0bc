// Samples dealt to chunks: stsc, with stco and stsz, read as they stand in the file, one pass each and never expanded. Chunks are numbered from 1 in stsc;
// elsewhere a chunk and a sample are named by their index from 0. No function asks that the tables agree: what they say where they do not is defined too.
// The length below 2 ^ 32 that some of them ask of a table is that of any part of a file that passed refusal 1.
#![tactic(auto)]

ghost use Rattle.std.specs.Prelude.{◌≡◌, ◌-◌, ◌^◌, ◌≤◌, ◌<◌, min, length};
ghost use Rattle.words.specs.Words.{sizes, chunk_offsets};
ghost use Rattle.chunks.specs.Chunks.{deals_in, first_of, per_chunk, description_ids};
ghost use Rattle.chunks.specs.Computed.{located_in, located_offset};
ghost use Rattle.chunks.specs.Cursors.{start_cursor, readied, past, sought};

use bigendian::{after, u32_at};
use words::{bytes_between, chunk_offset, saturating_sum};

// The chunk at which the entries of a part begin: one past the last chunk where there is none. So the last entry holds for all chunks that remain.
pub fn first_of(part: &[u8], chunks: u32) -> u64
    ensures { (result ≡ first_of chunks (deals_in part.now)) × (result ≤ 2 ^ 32) }
{
    if ChunkCursor::ENTRY <= part.len() {
        return u32_at(part, 0) as u64;
    }
    chunks as u64 + 1
}

// How many chunks an entry holds for; none where the next one begins no later.
pub fn span(first: u64, next: u64) -> u64
    ensures { result ≡ next - first }
{
    if first < next { next - first } else { 0 }
}

// A place in stsc: how many chunks remain of a run, with the samples and the description ID of each, and where the entries not yet read begin.
#[derive(Clone, Copy)]
pub struct ChunkCursor {
    pub at: usize,
    pub remaining: u64,
    pub per: u32,
    pub description: u32,
}

impl ChunkCursor {
    // The bytes of stsc before its entries, and of an entry.
    pub const HEAD: usize = 16;

    pub const ENTRY: usize = 12;
}

// Before the first entry.
pub fn start_cursor() -> ChunkCursor
    ensures { result ≡ start_cursor }
{
    ChunkCursor {
        at: ChunkCursor::HEAD,
        remaining: 0,
        per: 0,
        description: 0,
    }
}

// Entries are read until a chunk remains, if there is one. The bound lets callers count samples.
pub fn ready(stsc: &[u8], chunks: u32, c: ChunkCursor) -> ChunkCursor
    ensures { (result ≡ readied stsc.now chunks c) × (c.remaining ≤ 2 ^ 32 → result.remaining ≤ 2 ^ 32) }
{
    let mut r = c;
    while r.remaining == 0 {
        let at = r.at;
        if stsc.len() < at {
            return r;
        }
        let t = &stsc[at..];
        if t.len() < ChunkCursor::ENTRY {
            return r;
        }
        let first = u32_at(t, 0);
        let next = first_of(&t[ChunkCursor::ENTRY..], chunks);
        r = ChunkCursor {
            at: at + ChunkCursor::ENTRY,
            remaining: span(first as u64, next),
            per: u32_at(t, 4),
            description: u32_at(t, 8),
        };
    }
    r
}

// Past some chunks of the run.
pub fn pass(c: ChunkCursor, count: u64) -> ChunkCursor
    ensures { result ≡ past count c }
{
    ChunkCursor {
        at: c.at,
        remaining: span(count, c.remaining),
        per: c.per,
        description: c.description,
    }
}

// A sample found: a cursor before its chunk, the index of the chunk, and its own index in the chunk.
#[derive(Clone, Copy)]
pub struct Sought {
    pub cursor: ChunkCursor,
    pub chunk: u64,
    pub within: u32,
}

// The chunk of the sample with an index. Past the last sample that is one past the last chunk, with what the index has over.
pub fn seek(stsc: &[u8], chunks: u32, index: u32) -> Sought
    requires { length stsc.now < 2 ^ 32 }
    ensures { result ≡ sought stsc.now chunks index }
{
    let mut c = ready(stsc, chunks, start_cursor());
    let mut passed: u64 = 0;
    let mut rest = index as u64;
    while c.remaining != 0 {
        let count = c.remaining;
        let per = c.per as u64;
        let samples = count * per;
        if rest < samples {
            let skip = rest / per;
            let cursor = pass(c, skip);
            return Sought {
                cursor,
                chunk: passed + skip,
                within: (rest % per) as u32,
            };
        }
        rest -= samples;
        passed += count;
        c = ready(stsc, chunks, pass(c, count));
    }
    Sought {
        cursor: c,
        chunk: passed,
        within: rest as u32,
    }
}

// Where a sample lies: the index of its chunk, its index in the chunk, and the chunk's description ID.
#[derive(Clone, Copy)]
pub struct Located {
    pub chunk: u64,
    pub within: u32,
    pub description: u32,
}

// The place of the sample with an index. Past the last sample the ID is 0.
pub fn locate(stsc: &[u8], chunks: u32, index: u32) -> Located
    requires { length stsc.now < 2 ^ 32 }
    ensures { result ≡ located_in (per_chunk stsc.now chunks) (description_ids stsc.now chunks) index }
{
    let found = seek(stsc, chunks, index);
    let c = found.cursor;
    let id = if c.remaining == 0 { 0 } else { c.description };
    Located {
        chunk: found.chunk,
        within: found.within,
        description: id,
    }
}

// The offset of the sample with an index, whose place was found; `offsets` is stco or co64. An offset of 64 bits can take the sum past the largest number.
pub fn located_offset(stsz: &[u8], offsets: &[u8], place: Located, index: u32) -> u64
    ensures { result ≡ min (located_offset (chunk_offsets offsets.now) (sizes stsz.now) place index) 18446744073709551615 }
{
    let begin = words::span(place.within, index);
    saturating_sum(
        chunk_offset(offsets, place.chunk),
        bytes_between(stsz, begin, index),
    )
}
