// Whether the chunks of a track end within a limit (refusal 12): stsc with stco or co64 and stsz, one pass over each. Listed sizes are added chunk by chunk;
// with a common size the chunks of a run are asked at once.
#![tactic(auto)]

ghost use Rattle.std.specs.Prelude.{◌≡◌, ◌+◌, ◌*◌, ◌^◌, ◌≤◌, ◌<◌, ltb, length, take, replicate};
ghost use Rattle.bigendian.specs.BigEndian.{u32_at};
ghost use Rattle.words.specs.Words.{numbers_in, words_in, sizes, width_of, chunk_offsets};
ghost use Rattle.chunks.specs.Chunks.{per_chunk, end_within};
ghost use Rattle.chunk_ends.specs.Ends.{none_above};

use bigendian::{after, u32_at};
use chunks::{pass, ready, start_cursor};
use words::{is_long, number_in, sum_words, width_of};

// Whether a chunk ends past the limit: its offset plus its bytes. Their sum could wrap.
fn passes(base: u64, bytes: u64, limit: u64) -> bool
    ensures { result ≡ ltb limit (base + bytes) }
{
    if limit < base {
        return true;
    }
    limit - base < bytes
}

// Whether each chunk's offset plus the listed sizes of its samples is within a limit. The index and the part of the sizes go on from chunk to chunk.
fn listed_within(
    stsc: &[u8],
    chunks: u32,
    offsets: &[u8],
    long: bool,
    sizes: &[u8],
    limit: u64,
) -> bool
    requires { length stsc.now < 2 ^ 32 }
    ensures { result ≡ end_within limit (per_chunk stsc.now chunks) (numbers_in (width_of long) offsets.now) (words_in sizes.now) }
{
    let mut index = 0;
    let mut z = sizes;
    let mut c = ready(stsc, chunks, start_cursor());
    while c.remaining != 0 {
        let n = (c.per as usize * 4).min(z.len());
        let bytes = sum_words(&z[..n]);
        if passes(number_in(offsets, long, index), bytes, limit) {
            return false;
        }
        z = &z[n..];
        index += 1;
        c = ready(stsc, chunks, pass(c, 1));
    }
    true
}

// The first `count` of some numbers; all where there are fewer.
fn first_numbers(part: &[u8], long: bool, count: u64) -> &[u8]
    ensures { numbers_in (width_of long) result.now ≡ take count (numbers_in (width_of long) part.now) }
{
    let width = width_of(long);
    if count <= (part.len() / width) as u64 {
        let n = count as usize * width;
        return &part[..n];
    }
    part
}

// Whether none of the first `count` offsets is above the largest one allowed. Two a turn take as long as one would.
fn offsets_within(offsets: &[u8], long: bool, count: u64, most: u64) -> bool
    ensures { result ≡ none_above most (take count (numbers_in (width_of long) offsets.now)) }
{
    let step = 2 * width_of(long);
    let these = first_numbers(offsets, long, count);
    let mut t = these;
    while step <= t.len() {
        if most < number_in(t, long, 0).max(number_in(t, long, 1)) {
            return false;
        }
        t = &t[step..];
    }
    number_in(t, long, 0) <= most
}

// Whether each of `count` chunks of `per` samples ends within a limit, with a common size of so many samples: chunk by chunk, since they may end before the
// chunks do. The offsets begin with the first chunk's.
fn clamped_within(
    offsets: &[u8],
    long: bool,
    samples: u32,
    each: u32,
    count: u64,
    per: u32,
    limit: u64,
) -> bool
    ensures { result ≡ end_within limit (replicate count per) (numbers_in (width_of long) offsets.now) (replicate samples each) }
{
    let mut stock = samples;
    for i in 0..count {
        let base = number_in(offsets, long, i as usize);
        let following = words::span(per, stock);
        if passes(base, (stock - following) as u64 * each as u64, limit) {
            return false;
        }
        stock = following;
    }
    true
}

// The same. Where there are samples for all chunks, each has as many bytes, and the offsets alone are looked at.
fn run_within(
    offsets: &[u8],
    long: bool,
    samples: u32,
    each: u32,
    count: u64,
    per: u32,
    limit: u64,
) -> bool
    requires { count ≤ 2 ^ 32 }
    ensures { result ≡ end_within limit (replicate count per) (numbers_in (width_of long) offsets.now) (replicate samples each) }
{
    let bytes = per as u64 * each as u64;
    if count * per as u64 <= samples as u64 {
        if bytes <= limit {
            return offsets_within(offsets, long, count, limit - bytes);
        }
    }
    clamped_within(offsets, long, samples, each, count, per, limit)
}

// Whether each chunk's offset plus the bytes of its samples is within a limit, with a common size of so many samples: run after run.
fn common_within(
    stsc: &[u8],
    chunks: u32,
    offsets: &[u8],
    long: bool,
    samples: u32,
    each: u32,
    limit: u64,
) -> bool
    ensures { result ≡ end_within limit (per_chunk stsc.now chunks) (numbers_in (width_of long) offsets.now) (replicate samples each) }
{
    let width = width_of(long);
    let mut t = offsets;
    let mut stock = samples;
    let mut c = ready(stsc, chunks, start_cursor());
    while c.remaining != 0 {
        let count = c.remaining;
        if !run_within(t, long, stock, each, count, c.per, limit) {
            return false;
        }
        stock = (stock as u64).saturating_sub(count * c.per as u64) as u32;
        let others = after(t, count as usize * width);
        t = others;
        c = ready(stsc, chunks, pass(c, count));
    }
    true
}

// Whether each chunk's offset plus the sizes of its samples is within a limit; `offsets` is stco or co64.
pub fn chunks_end_within(stsc: &[u8], stsz: &[u8], offsets: &[u8], limit: u64) -> bool
    requires { length stsc.now < 2 ^ 32 }
    ensures { result ≡ end_within limit (per_chunk stsc.now (u32_at offsets.now 12)) (chunk_offsets offsets.now) (sizes stsz.now) }
{
    let chunks = u32_at(offsets, 12);
    let long = is_long(offsets);
    let part = after(offsets, 16);
    let each = u32_at(stsz, 12);
    if each == 0 {
        return listed_within(stsc, chunks, part, long, after(stsz, 20), limit);
    }
    common_within(stsc, chunks, part, long, u32_at(stsz, 16), each, limit)
}
