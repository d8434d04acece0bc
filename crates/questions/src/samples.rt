// A sample by its number, and its bytes.
ghost use Rattle.std.specs.Prelude.{◌≡◌, ◌+◌, ◌≤◌, ◌<◌, ◌^◌, length, pos, ◌+ℤ◌};
ghost use Rattle.questions.specs.Said.{is_low, found_as, said_in, sample_said};
ghost use Rattle.questions.specs.Samples.{Samples, PartOf, SampleBytes};

use super::Asked;
use bigendian::u32_at;
use chunks::{Located, locate};
use refusals::Refusal;
use runs::{Timing, composition_offset, timing_of};
use structure::source::Source;
use words::{is_sync, size_of};

// What the tables say of a sample.
#[derive(Clone, Copy)]
pub struct Sample {
    pub decode: u64,
    pub duration: u32,
    pub composition: i64,
    pub sync: bool,
    pub description: u32,
    pub chunk: u64,
    pub offset: u64,
    pub size: u32,
}

// A decode time and a signed offset, added.
pub fn shifted(decode: u32, offset: i32) -> i64
    ensures { result ≡ pos decode +ℤ offset }
{
    decode as i64 + offset as i64
}

// Whether a sample's decode time, the index of its chunk and its offset are as low as those of an accepted track.
fn is_low(decode: u64, chunk: u64, chunks: u32, offset: u64) -> bool
    ensures { result ≡ is_low decode chunk chunks offset }
{
    if 4294967295 < decode {
        return false;
    }
    if chunks as u64 <= chunk {
        return false;
    }
    offset < 9223372036854775808
}

// The sample with an index, from 0, by what was looked up of it; refused where its numbers are not low, which they are in an accepted track.
pub fn sample_found(
    timing: Timing,
    shift: i32,
    place: Located,
    sync: bool,
    stsz: &[u8],
    offsets: &[u8],
    chunks: u32,
    index: u32,
) -> Result<Sample, Refusal>
    ensures { result ≡ found_as timing shift place sync stsz.now offsets.now chunks index }
{
    let start = timing.start;
    let offset = chunks::located_offset(stsz, offsets, place, index);
    if !is_low(start, place.chunk, chunks, offset) {
        return Err(Refusal::Outside);
    }
    Ok(Sample {
        decode: start,
        duration: timing.duration,
        composition: shifted(start as u32, shift),
        sync,
        description: place.description,
        chunk: place.chunk + 1,
        offset,
        size: size_of(stsz, index),
    })
}

// What the tables say of the sample with an index, from 0.
fn sample_in(
    stts: &[u8],
    ctts: &[u8],
    stsc: &[u8],
    stsz: &[u8],
    offsets: &[u8],
    stss: &[u8],
    chunks: u32,
    index: u32,
) -> Result<Sample, Refusal>
    requires { (length stsc.now < 2 ^ 32) × (index < 4294967295) }
    ensures { result ≡ said_in stts.now ctts.now stsc.now stsz.now offsets.now stss.now chunks index }
{
    sample_found(
        timing_of(stts, index),
        composition_offset(ctts, index) as i32,
        locate(stsc, chunks, index),
        is_sync(stss, index + 1),
        stsz,
        offsets,
        chunks,
        index,
    )
}

// Sample n, numbered from 1, by the bytes of its tables and the numbers of samples and chunks, whatever these are.
pub fn sample_of(
    stts: &[u8],
    ctts: &[u8],
    stsc: &[u8],
    stsz: &[u8],
    offsets: &[u8],
    stss: &[u8],
    samples: u32,
    chunks: u32,
    n: u32,
) -> Result<Sample, Refusal>
    ensures { result ≡ sample_said stts.now ctts.now stsc.now stsz.now offsets.now stss.now samples chunks n }
{
    if n == 0 {
        return Err(Refusal::Outside);
    }
    if samples < n {
        return Err(Refusal::Outside);
    }
    if 4294967295 < stsc.len() {
        return Err(Refusal::Outside);
    }
    sample_in(stts, ctts, stsc, stsz, offsets, stss, chunks, n - 1)
}

// Sample n of a track, numbered from 1.
pub fn sample_by_number(lent: &[u8], source: Source, id: u32, n: u32) -> Result<Sample, Refusal>
    ensures { Samples lent.now source id n result }
{
    let ask = Asked::of(lent, source, id)?;
    let trak = ask.trak;
    let body = places::part_of(lent, trak.body);
    let p = trak.parts;
    let stsz = places::part_of(body, p.stsz);
    let offsets = places::part_of(body, p.offsets);
    sample_of(
        places::part_of(body, p.stts),
        places::part_of(body, p.ctts),
        places::part_of(body, p.stsc),
        stsz,
        offsets,
        places::part_of(body, p.stss),
        u32_at(stsz, 16),
        u32_at(offsets, 12),
        n,
    )
}

// A part of the file by its start and length.
fn part_of<'a>(file: &'a [u8], start: u64, size: u32) -> &'a [u8]
    requires { start + size ≤ length file.now }
    ensures { PartOf file.entry start size result }
{
    let from = start as usize;
    let end = from + size as usize;
    &file[from..end]
}

// The bytes of sample n, as they stand in the file; on refusal its empty beginning.
pub fn sample_bytes<'a>(file: &'a [u8], id: u32, n: u32) -> &'a [u8]
    ensures { SampleBytes file.entry id n result }
{
    let answer = sample_by_number(file, Source::whole(), id, n);
    match answer {
        Ok(s) => part_of(file, s.offset, s.size),
        Err(_) => part_of(file, 0, 0),
    }
}
