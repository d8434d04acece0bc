// A place in the chunks, by stsc with the chunk offsets and stsz.
ghost use Rattle.std.specs.Prelude.{◌≡◌, ◌+◌, ◌^◌, ◌<◌, min, eqb, length};
ghost use Rattle.atoms.specs.Atoms.{kind_of};
ghost use Rattle.atoms.specs.Kinds.{co64};
ghost use Rattle.positions.specs.Dealing.{offset_head, begun, readied_dealt, ahead_of, past_dealt, sought_dealt};

use bigendian::{after, u32_at};
use chunks::{ChunkCursor, Located, located_offset, pass, ready, seek};
use words::{HEAD, is_long, number_in, span};

// How many chunks are begun; how many samples of the last of them are still to come, and the offset of the next of these; a cursor before the next chunk,
// which still has the description ID of the one begun.
#[derive(Clone, Copy)]
pub struct Dealt {
    pub cursor: ChunkCursor,
    pub chunk: u32,
    pub rest: u32,
    pub offset: u64,
}

// What the head of stco or co64 says: how many chunks there are, and whether their offsets have 64 bits.
#[derive(Clone, Copy)]
pub struct OffsetHead {
    pub chunks: u32,
    pub long: bool,
}

// Read once, for the offsets of many chunks.
pub fn offset_head(offsets: &[u8]) -> OffsetHead
    ensures { result ≡ offset_head offsets.now }
{
    OffsetHead {
        chunks: u32_at(offsets, 12),
        long: is_long(offsets),
    }
}

// The next chunk begun, where the last one has no sample left; none where there is none, or where its offset could not grow. What ends the steps is told
// before a cursor is moved: so no two are held at once.
fn begin(stsc: &[u8], offsets: &[u8], head: OffsetHead, d: Dealt) -> Option<Dealt>
    requires { (head.long ≡ eqb (kind_of offsets.now) co64) × (d.rest ≡ 0) }
    ensures { result ≡ ahead_of (begun stsc.now offsets.now head.chunks d) }
{
    let chunk = d.chunk;
    if head.chunks <= chunk {
        return None;
    }
    let offset = number_in(after(offsets, HEAD), head.long, chunk as usize);
    if 9223372036854775807 < offset {
        return None;
    }
    let old = d.cursor;
    let c = ready(stsc, head.chunks, old);
    if c.per == 0 {
        return None;
    }
    let cursor = pass(c, 1);
    Some(Dealt {
        cursor,
        chunk: chunk + 1,
        rest: c.per,
        offset,
    })
}

// At a sample: where the chunk begun has none left, the next one is begun. None where no sample lies ahead, or where its offset could not grow.
pub(crate) fn dealt_ready(stsc: &[u8], offsets: &[u8], head: OffsetHead, d: Dealt) -> Option<Dealt>
    requires { head.long ≡ eqb (kind_of offsets.now) co64 }
    ensures { result ≡ ahead_of (readied_dealt stsc.now offsets.now head.chunks d) }
{
    if d.rest == 0 {
        return begin(stsc, offsets, head, d);
    }
    if 9223372036854775807 < d.offset {
        return None;
    }
    Some(d)
}

// Past a sample of that size.
pub(crate) fn dealt_pass(d: Dealt, size: u32) -> Dealt
    requires { (0 < d.rest) × (d.offset < 2 ^ 63) }
    ensures { result ≡ past_dealt size d }
{
    let cursor = d.cursor;
    Dealt {
        cursor,
        chunk: d.chunk,
        rest: d.rest - 1,
        offset: d.offset + size as u64,
    }
}

// How many chunks are begun with the one that has an index: no more than there are.
fn begun_with(chunk: u64, chunks: u32) -> u32
    ensures { result ≡ min (chunk + 1) chunks }
{
    chunk.saturating_add(1).min(chunks as u64) as u32
}

// Before the sample with an index, whatever the tables say of it.
pub fn dealt_seek(stsc: &[u8], stsz: &[u8], offsets: &[u8], chunks: u32, index: u32) -> Dealt
    requires { length stsc.now < 2 ^ 32 }
    ensures { result ≡ sought_dealt stsc.now stsz.now offsets.now chunks index }
{
    let found = seek(stsc, chunks, index);
    let c = found.cursor;
    let place = Located {
        chunk: found.chunk,
        within: found.within,
        description: c.description,
    };
    let cursor = pass(c, 1);
    Dealt {
        cursor,
        chunk: begun_with(found.chunk, chunks),
        rest: span(found.within, c.per),
        offset: located_offset(stsz, offsets, place, index),
    }
}
