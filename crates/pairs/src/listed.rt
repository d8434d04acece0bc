// Whole chunks whose sizes are listed, one after the other from a place on: what the tables that they are read from are, and the pair of each.
ghost use Rattle.std.specs.Prelude.{◌≡◌, ◌+◌, ◌*◌, ◌/◌, ◌^◌, ◌≤◌, ◌<◌, length, take, drop};
ghost use Rattle.lists.specs.Lists.{sum};
ghost use Rattle.words.specs.Words.{words_in};
ghost use Rattle.chunks.specs.Cursors.{readied, past};
ghost use Rattle.pairs.specs.Moves.{ListedTo, sizes_to, is_whole, place_by};

use super::{ChunkPosition, run_sizes};
use bigendian::u32_at;
use chunks::{ChunkCursor, pass, ready};
use words::sum_words;

// A place that a walk came to, with the next place of the room and the bytes of the pairs put.
#[derive(Clone, Copy)]
pub struct Moved {
    pub place: ChunkPosition,
    pub at: usize,
    pub bytes: u64,
}

// The sizes that are listed from a place's first sample up to, not including, the sample `stop`; none where the sizes are common.
pub fn sizes_to<'a>(stsz: &'a [u8], p: ChunkPosition, stop: u32) -> &'a [u8]
    ensures { ListedTo stsz.now stop p.begin result.now × (result.now ≡ sizes_to stsz.now stop p.begin) }
{
    if u32_at(stsz, 12) != 0 {
        return &stsz[..0];
    }
    if stop as u64 <= p.begin {
        return &stsz[..0];
    }
    let z = run_sizes(stsz, p);
    let n = (stop as u64 - p.begin) as usize * 4;
    if n <= z.len() {
        return &z[..n];
    }
    z
}

// Whether a chunk is ahead and the sizes of its samples are among the first `len` bytes, of which there are some.
pub fn is_whole(c: ChunkCursor, len: usize) -> bool
    ensures { result ≡ is_whole c len }
{
    if c.remaining == 0 {
        return false;
    }
    if len == 0 {
        return false;
    }
    c.per as usize * 4 <= len
}

// The bytes of the chunk at a cursor, asked for whole: by the sizes from its first sample on.
pub fn listed_bytes(sizes: &[u8], c: ChunkCursor) -> u64
    requires { c.per * 4 ≤ length sizes.now }
    ensures { result ≡ sum (words_in (take (c.per * 4) sizes.now)) }
{
    let n = c.per as usize * 4;
    sum_words(&sizes[..n])
}

// The sizes after those of the chunk at a cursor.
pub fn sizes_past<'a>(sizes: &'a [u8], c: ChunkCursor) -> &'a [u8]
    requires { c.per * 4 ≤ length sizes.now }
    ensures { result.now ≡ drop (c.per * 4) sizes.now }
{
    let n = c.per as usize * 4;
    &sizes[n..]
}

// The cursor before the next chunk.
pub fn next_cursor(stsc: &[u8], chunks: u32, c: ChunkCursor) -> ChunkCursor
    ensures { result ≡ readied stsc.now chunks (past 1 c) }
{
    ready(stsc, chunks, pass(c, 1))
}

// The place that is n chunks and the sizes of their samples, so many bytes, further on than another: in a loop only what moves in it is kept.
pub fn place_by(p: ChunkPosition, c: ChunkCursor, n: u64, passed: usize) -> ChunkPosition
    requires { (p.chunk + n < 2 ^ 64) × (p.begin + passed / 4 < 2 ^ 64) }
    ensures { result ≡ place_by p c n passed }
{
    let chunk = p.chunk;
    let begin = p.begin;
    ChunkPosition {
        cursor: c,
        chunk: chunk + n,
        begin: begin + (passed / 4) as u64,
    }
}
