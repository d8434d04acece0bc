// Whether the chunks of a track rise in the file and none overlaps the one before it: stsc with stco or co64 and stsz, one pass over each.
#![tactic(auto)]

ghost use Rattle.std.specs.Prelude.{◌≡◌, ◌||◌, ◌<◌, ◌^◌};
ghost use Rattle.bigendian.specs.BigEndian.{u32_at};
ghost use Rattle.lists.specs.Lists.{sum};
ghost use Rattle.words.specs.Words.{sizes, chunk_offsets};
ghost use Rattle.chunks.specs.Chunks.{per_chunk};
ghost use Rattle.chunk_order.specs.Order.{follows, disordered};
ghost use Rattle.chunk_order.specs.Walk.{extent};

use bigendian::{after, u32_at};
use chunks::{pass, ready, start_cursor};
use words::{bytes_between, is_long, number_in, width_of};

// Whether a chunk is the first, or begins past the offset of the one before it and no earlier than where that ends.
// A sum of offset and bytes could wrap.
fn may_follow(first: bool, offset: u64, bytes: u64, next: u64) -> bool
    ensures { result ≡ (first || follows (extent offset bytes) (extent next 0)) }
{
    if first {
        return true;
    }
    if next <= offset {
        return false;
    }
    bytes <= next - offset
}

// Whether the chunks do not rise, or one overlaps the one before it; `offsets` is stco or co64.
pub fn is_disordered(stsc: &[u8], stsz: &[u8], offsets: &[u8]) -> bool
    requires { sum (per_chunk stsc.now (u32_at offsets.now 12)) < 2 ^ 32 }
    ensures { result ≡ disordered (per_chunk stsc.now (u32_at offsets.now 12)) (chunk_offsets offsets.now)
        (sizes stsz.now) }
{
    let chunks = u32_at(offsets, 12);
    let long = is_long(offsets);
    let width = width_of(long);
    let mut t = after(offsets, 16);
    let mut from: u32 = 0;
    let mut first = true;
    let mut offset: u64 = 0;
    let mut bytes: u64 = 0;
    let mut c = ready(stsc, chunks, start_cursor());
    while c.remaining != 0 {
        let next = number_in(t, long, 0);
        if !may_follow(first, offset, bytes, next) {
            return true;
        }
        let to = from + c.per;
        bytes = bytes_between(stsz, from, to);
        offset = next;
        first = false;
        from = to;
        let others = after(t, width);
        t = others;
        c = ready(stsc, chunks, pass(c, 1));
    }
    false
}
