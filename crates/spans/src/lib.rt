// The samples of a stretch of a track, and their byte ranges in lent numbers of 32 or of 64 bits.
#![tactic(auto)]

ghost use Rattle.std.specs.Prelude.{◌≡◌, ◌≤◌, ◌<◌, ◌*◌, ◌/◌, ◌^◌, leb, map, length};
ghost use Rattle.std.proofs.lemmas.List.Edits.{sets};
ghost use Rattle.lists.specs.Lists.{sum, holder};
ghost use Rattle.runs.specs.Runs.{per_sample};
ghost use Rattle.places.specs.Places.{AreParts};
ghost use Rattle.pairs.specs.Pairs.{flat};
ghost use Rattle.pairs.specs.Walks.{lengths_of};
ghost use Rattle.spans.specs.Spans.{Usable, span_said, span_pairs};

use bigendian::u32_at;
use edits::MediaTime;
use pairs::count_pairs;
use places::part_of;
use places::trak::Parts;
use refusals::Refusal;
use room_pairs::{PairsPut, RoomNumber, put_pairs};

// Samples by their indices: from the first up to, not including, `stop`.
#[derive(Clone, Copy)]
pub struct Span {
    pub from: u32,
    pub stop: u32,
}

// The index of the sample at a media time.
fn index_at(stts: &[u8], t: u32) -> u32
    requires { (length stts.now < 2 ^ 32) × (t < sum (per_sample stts.now)) × (holder (per_sample stts.now) t < 2 ^ 32) }
    ensures { result ≡ holder (per_sample stts.now) t }
{
    match runs::sample_at(stts, t) {
        Some(index) => index as u32,
        None => 0,
    }
}

// The samples of the stretch from a to b, by the bytes of stts and the number of samples, whatever these are; refused where it lies outside. That b is not above
// the total is known by the sample at b - 1, so that the total need not be added first.
pub fn span_of(stts: &[u8], samples: u32, a: MediaTime, b: MediaTime) -> Result<Span, Refusal>
    ensures { result ≡ span_said stts.now samples a.0 b.0 }
{
    let first = a.0;
    let end = b.0;
    if end <= first {
        return Err(Refusal::Outside);
    }
    if 4294967295 < stts.len() {
        return Err(Refusal::Outside);
    }
    match runs::sample_at(stts, end - 1) {
        Some(last) => {
            if samples as u64 <= last {
                return Err(Refusal::Outside);
            }
            let from = index_at(stts, first);
            let stop = last as u32 + 1;
            Ok(Span { from, stop })
        }
        None => Err(Refusal::Outside),
    }
}

// How many chunks some samples of a track touch.
pub fn count_in(trak: &[u8], p: Parts, s: Span) -> u64
    requires { (AreParts trak.now p) × Usable (2 ^ 64) trak.now }
    ensures { result ≡ length (span_pairs trak.now s) }
{
    let stsc = part_of(trak, p.stsc);
    let chunks = u32_at(part_of(trak, p.offsets), 12);
    count_pairs(stsc, chunks, s.from, s.stop)
}

// Whether the pairs of some samples of a track have place among so many numbers. They are counted only where these are fewer than two for each chunk.
pub fn has_room(trak: &[u8], p: Parts, s: Span, places: usize) -> bool
    requires { (AreParts trak.now p) × Usable (2 ^ 64) trak.now }
    ensures { result ≡ leb (length (span_pairs trak.now s)) (places / 2) }
{
    let most = (places / 2) as u64;
    let chunks = u32_at(part_of(trak, p.offsets), 12);
    if chunks as u64 <= most {
        return true;
    }
    count_in(trak, p, s) <= most
}

// Puts the pairs of some samples of a track into the first places of the room.
pub fn put_in<N: RoomNumber>(trak: &[u8], p: Parts, s: Span, room: &mut [N]) -> PairsPut
    requires { (AreParts trak.now p) × Usable N.limit trak.now × (s.from ≤ s.stop) × (2 * length (span_pairs trak.now s) ≤ length room.old) }
    ensures { (result.pairs ≡ length (span_pairs trak.now s)) × (result.bytes ≡ sum (lengths_of (span_pairs trak.now s))) × (map N.value room.new ≡ sets (map N.value room.old) 0 (flat (span_pairs trak.now s))) }
{
    let stsc = part_of(trak, p.stsc);
    let stsz = part_of(trak, p.stsz);
    let offsets = part_of(trak, p.offsets);
    put_pairs(
        stsc,
        stsz,
        offsets,
        u32_at(offsets, 12),
        s.from,
        s.stop,
        room,
    )
}
