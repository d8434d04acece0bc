// Whether the byte ranges of some samples are numbers of 64 bits, by the bytes of the tables, whatever these are.
#![tactic(auto)]

ghost use Rattle.std.specs.Prelude.{◌≡◌, ◌<◌, ◌^◌};
ghost use Rattle.pair_checks.specs.Fits.{pairs_fit, start_fits};

use pairs::{ChunkPosition, is_past, start_place};
use words::{bytes_between, chunk_offset, is_long};

// Whether the place in the file of the sample `from`, which lies in the chunk at a place, is a number of 64 bits.
fn start_fits(stsz: &[u8], offsets: &[u8], p: ChunkPosition, from: u32) -> bool
    requires { p.begin < 2 ^ 32 }
    ensures { result ≡ start_fits stsz.now offsets.now p from }
{
    let before = bytes_between(stsz, p.begin as u32, from);
    before <= 18446744073709551615 - chunk_offset(offsets, p.chunk)
}

// Whether stsc is short enough to be walked and both numbers of each pair of the samples from `from` up to `stop` have 64 bits. Only the first pair can
// begin inside its chunk, so that no other offset is a sum, and a sum of an offset of 32 bits and the sizes before a sample fits.
pub fn pairs_fit(
    stsc: &[u8],
    stsz: &[u8],
    offsets: &[u8],
    chunks: u32,
    from: u32,
    stop: u32,
) -> bool
    ensures { result ≡ pairs_fit stsc.now stsz.now offsets.now chunks from stop }
{
    if 4294967295 < stsc.len() {
        return false;
    }
    if !is_long(offsets) {
        return true;
    }
    let p = start_place(stsc, chunks, from);
    if is_past(p, stop) {
        return true;
    }
    start_fits(stsz, offsets, p, from)
}
