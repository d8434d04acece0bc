// Checkpoints of stsc, as runs of chunks, and the chunk of a sample by them.
#![tactic(auto)]

ghost use Rattle.std.specs.Prelude.{◌≡◌, ◌*◌, ◌^◌, ◌<◌, ◌≤◌, length, take};
ghost use Rattle.std.proofs.lemmas.List.Edits.{sets};
ghost use Rattle.checkpoints.specs.Points.{with_runs, point_numbers};
ghost use Rattle.chunks.specs.Chunks.{deals_in, chunk_runs};
ghost use Rattle.chunk_lookups.specs.From.{deal_runs, LocatedFrom};

use bigendian::{after, u32_at};
use checkpoints::{Sums, last_upto, sums_with};
use chunks::{ChunkCursor, Located, first_of, locate, span};
use table_numbers::number_at;

// The bytes of 64 entries.
const BYTES: usize = 768;

// With the next 64 entries of a part, or as many as there are.
fn sums_past(part: &[u8], chunks: u32, sums: Sums) -> Sums
    ensures { result ≡ with_runs (take 64 (chunk_runs (λ e. e.per) chunks (deals_in part.now))) sums }
{
    let mut s = part;
    let mut r = sums;
    let mut i = 0;
    while i < checkpoints::RUNS {
        if s.len() < ChunkCursor::ENTRY {
            return r;
        }
        let first = u32_at(s, 0);
        let next = first_of(&s[12..], chunks);
        r = sums_with(r, span(first as u64, next), u32_at(s, 4));
        s = &s[12..];
        i += 1;
    }
    r
}

// Puts the checkpoints into the first places of the room, two numbers each: chunks and samples.
pub fn put_checkpoints(stsc: &[u8], chunks: u32, count: usize, room: &mut [u64])
    requires { (count < 2 ^ 32) × (2 * count ≤ length room.old) }
    ensures { room.new ≡ sets room.old 0 (point_numbers (deal_runs stsc.now chunks) count) }
{
    let mut r = Sums { count: 0, total: 0 };
    for i in 0..count {
        room[2 * i] = r.count;
        room[2 * i + 1] = r.total;
        r = sums_past(after(stsc, 16 + BYTES * i), chunks, r);
    }
}

// The place of the sample with an index.
pub fn locate_from(stsc: &[u8], points: &[u64], count: usize, chunks: u32, index: u32) -> Located
    requires { (length stsc.now < 2 ^ 32) × (0 < count) × (count < 2 ^ 32) }
    ensures { LocatedFrom stsc.now points.now count chunks index result }
{
    let i = last_upto(points, count, 1, index as u64);
    let passed = number_at(points, 2 * i + 1);
    if (index as u64) < passed {
        return locate(stsc, chunks, index);
    }
    let found = locate(
        after(stsc, BYTES * i),
        chunks,
        (index as u64 - passed) as u32,
    );
    Located {
        chunk: std::num::wrapping_add_u64(number_at(points, 2 * i), found.chunk),
        within: found.within,
        description: found.description,
    }
}
