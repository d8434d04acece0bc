// A stretch by the bytes of its track's tables, whatever these are: the question by a handle goes by it.
ghost use Rattle.std.specs.Prelude.{◌≡◌, true};
ghost use Rattle.pairs.specs.Walks.{pairs_between};
ghost use Rattle.pair_checks.specs.Fits.{pairs_fit};
ghost use Rattle.stretch.specs.Said.{asked_said, PutsPairs, StretchSaid};

use super::StretchTotals;
use edits::MediaTime;
use pair_checks::pairs_fit;
use pairs::count_pairs;
use refusals::Refusal;
use room_pairs::put_pairs;
use spans::{Span, span_of};

// The samples of the stretch from a to b, where their pairs are numbers of 64 bits; else refused.
pub fn asked_of(
    stts: &[u8],
    stsc: &[u8],
    stsz: &[u8],
    offsets: &[u8],
    samples: u32,
    chunks: u32,
    a: MediaTime,
    b: MediaTime,
) -> Result<Span, Refusal>
    ensures { result ≡ asked_said stts.now stsc.now stsz.now offsets.now samples chunks a b }
{
    let span = span_of(stts, samples, a, b)?;
    if pairs_fit(stsc, stsz, offsets, chunks, span.from, span.stop) {
        return Ok(span);
    }
    Err(Refusal::Outside)
}

// Puts the pairs of some samples into the first places of the room, where it is long enough.
fn put_span(
    stsc: &[u8],
    stsz: &[u8],
    offsets: &[u8],
    chunks: u32,
    s: Span,
    room: &mut [u64],
) -> Result<StretchTotals, Refusal>
    requires { pairs_fit stsc.now stsz.now offsets.now chunks s.from s.stop ≡ true }
    ensures { PutsPairs 0 (pairs_between stsc.now stsz.now offsets.now chunks s.from s.stop) room.old result room.new }
{
    let many = count_pairs(stsc, chunks, s.from, s.stop) as usize;
    if room.len() / 2 < many {
        return Err(Refusal::NoRoom);
    }
    let put = put_pairs(stsc, stsz, offsets, chunks, s.from, s.stop, room);
    Ok(StretchTotals {
        pairs: many,
        bytes: put.bytes,
    })
}

// The stretch from a to b: a pair (offset, length) for each chunk touched, in the first places of the room. A refusal leaves the room as it is.
pub fn stretch_in(
    stts: &[u8],
    stsc: &[u8],
    stsz: &[u8],
    offsets: &[u8],
    samples: u32,
    chunks: u32,
    a: MediaTime,
    b: MediaTime,
    room: &mut [u64],
) -> Result<StretchTotals, Refusal>
    ensures { StretchSaid stts.now stsc.now stsz.now offsets.now samples chunks a b room.old result room.new }
{
    let span = asked_of(stts, stsc, stsz, offsets, samples, chunks, a, b)?;
    put_span(stsc, stsz, offsets, chunks, span, room)
}
