// The slip of a stretch, into lent bytes.
#![tactic(auto)]

ghost use Rattle.std.specs.Prelude.{◌≡◌, ◌+◌, ◌≤◌, ◌<◌, ◌^◌, length};
ghost use Rattle.pairs.specs.Pairs.{flat};
ghost use Rattle.slip_head.specs.Bytes.{slip_bytes};
ghost use Rattle.pair_bytes.specs.Measures.{pair_bytes, measured_of, Wrote};
ghost use Rattle.structure.specs.Source.{whole_file};
ghost use Rattle.places.specs.Places.{AreParts};
ghost use Rattle.spans.specs.Spans.{Usable, span_pairs};
ghost use Rattle.slip_writing.specs.Writing.{NarrowHead, PutSlip};
ghost use Rattle.slip_writing.specs.Slips.{Slips};

use bigendian::u32_at;
use edits::MediaTime;
use pair_bytes::Measured;
use places::part_of;
use places::trak::Parts;
use refusals::Refusal;
use slip_head::{Head, head_len, put_head};
use slip_pairs::{measure_pairs, write_pairs};
use spans::{Span, count_in};
use stretch::span_asked;
use structure::source::Source;
use track::scale_in;

// In how many bytes the pairs of some samples of a track are written, and whether a number of them is 2^32 or more.
fn measure_in(trak: &[u8], p: Parts, s: Span) -> Measured
    requires { (AreParts trak.now p) × Usable (2 ^ 64) trak.now × (s.from ≤ s.stop) }
    ensures { result ≡ measured_of (span_pairs trak.now s) }
{
    let stsc = part_of(trak, p.stsc);
    let stsz = part_of(trak, p.stsz);
    let offsets = part_of(trak, p.offsets);
    measure_pairs(stsc, stsz, offsets, u32_at(offsets, 12), s.from, s.stop)
}

// Writes the pairs of some samples of a track, from the place `at` on, and answers the place past them.
fn write_in(trak: &[u8], p: Parts, s: Span, out: &mut [u8], at: usize) -> usize
    requires { (AreParts trak.now p) × Usable (2 ^ 64) trak.now × (s.from ≤ s.stop) × (at + length (pair_bytes (span_pairs trak.now s)) ≤ length out.old) }
    ensures { Wrote (span_pairs trak.now s) out.old at result out.new }
{
    let stsc = part_of(trak, p.stsc);
    let stsz = part_of(trak, p.stsz);
    let offsets = part_of(trak, p.offsets);
    write_pairs(
        stsc,
        stsz,
        offsets,
        u32_at(offsets, 12),
        s.from,
        s.stop,
        out,
        at,
    )
}

// The numbers before the pairs, none of which asks for form 2.
fn head_of(id: u32, scale: u32, a: u32, b: u32, pairs: u64) -> Head
    requires { pairs < 2 ^ 32 }
    ensures { (result ≡ record { id = id; scale = scale; a = a; b = b; pairs = pairs }) × NarrowHead result }
{
    Head {
        id: id as u64,
        scale: scale as u64,
        a: a as u64,
        b: b as u64,
        pairs,
    }
}

// Writes a slip with that head and the pairs of some samples, where it fits, and answers its length. Only the pairs can ask for form 2.
fn put_slip(trak: &[u8], p: Parts, s: Span, head: Head, out: &mut [u8]) -> Result<usize, Refusal>
    requires { (AreParts trak.now p) × Usable (2 ^ 64) trak.now × (s.from ≤ s.stop) × NarrowHead head }
    ensures { PutSlip (slip_bytes head (flat (span_pairs trak.now s))) out.old result out.new }
{
    let m = measure_in(trak, p, s);
    let length = head_len(head) + m.bytes;
    if out.len() < length {
        return Err(Refusal::NoRoom);
    }
    let at = put_head(out, head, m.wide).unwrap();
    Ok(write_in(trak, p, s, out, at))
}

// The slip of a track's stretch from a to b of any film, lent whole or its moov alone, in the first bytes; answers its length in bytes. The film is read
// strictly. A refusal leaves the bytes as they are.
pub fn write_slip_of(
    lent: &[u8],
    source: Source,
    id: u32,
    a: MediaTime,
    b: MediaTime,
    out: &mut [u8],
) -> Result<usize, Refusal>
    ensures { Slips lent.now source id a b out.old result out.new }
{
    let found = span_asked(lent, source.strictly(), id, a, b)?;
    let trak = found.trak;
    let span = found.span;
    let body = part_of(lent, trak.body);
    let p = trak.parts;
    let pairs = count_in(body, p, span);
    let head = head_of(id, scale_in(body, p), a.0, b.0, pairs);
    put_slip(body, p, span, head, out)
}

// The same of a whole file.
pub fn write_slip(
    file: &[u8],
    id: u32,
    a: MediaTime,
    b: MediaTime,
    out: &mut [u8],
) -> Result<usize, Refusal>
    ensures { Slips file.now whole_file id a b out.old result out.new }
{
    write_slip_of(file, Source::whole(), id, a, b, out)
}
