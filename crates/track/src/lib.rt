// The refusals of a track, 7 to 13 and 19, from the body of its trak.
#![tactic(auto)]

ghost use Rattle.std.specs.Prelude.{◌≡◌, ◌||◌, ◌<◌, ◌^◌, true, length, ltb, eqb};
ghost use Rattle.refusals.specs.Refusals.{code};
ghost use Rattle.structure.specs.ByTracks.{of_track};
ghost use Rattle.atoms.specs.Kinds.{stts};
ghost use Rattle.structure.specs.Track.{id_of, subtype_of, scale_of, table_of, samples_of};
ghost use Rattle.places.specs.Places.{AreParts};
ghost use Rattle.runs.specs.Runs.{runs_of};
ghost use Rattle.runs.specs.Computed.{counting};
ghost use Rattle.edits.specs.Edits.{edit_total};
ghost use Rattle.track.specs.Track.{least_size};
ghost use Rattle.track.specs.Refusals.{contradicts, total_in, other_duration, data_elsewhere};
ghost use Rattle.track.specs.TrackRows.{timed_rows, track_rows};

use atoms::kinds;
use bigendian::u32_at;
use chunk_checks::deals_samples;
use chunk_ends::chunks_end_within;
use edits::{edits_ok, edits_total};
use places::part_of;
use places::trak::Parts;
use presence::both;
use references::all_in_this_file;
use refusals::Refusal;
use runs::{count_and_total, counts, total_duration};
use structure::source::Source;
use words::syncs_agree;

// The total of a track's sample durations.
pub fn media_total(trak: &[u8], p: Parts) -> u32
    requires { (AreParts trak.now p) × (total_in trak.now < 4294967296) }
    ensures { result ≡ total_in trak.now }
{
    match total_duration(part_of(trak, p.stts)) {
        Some(n) => n,
        None => 0,
    }
}

// Whether ctts counts the samples; without one nothing is asked.
fn may_count(ctts: &[u8], samples: u32) -> bool
    ensures { result ≡ (eqb (length ctts.now) 0 || counting samples (runs_of ctts.now)) }
{
    if ctts.len() == 0 {
        return true;
    }
    counts(ctts, samples)
}

// Whether the sample tables contradict each other, where stts counts the samples.
fn is_contradictory(trak: &[u8], p: Parts) -> bool
    requires { (AreParts trak.now p) × (counting (samples_of trak.now) (runs_of (table_of stts trak.now)) ≡ true) }
    ensures { result ≡ contradicts trak.now }
{
    let samples = u32_at(part_of(trak, p.stsz), 16);
    let chunks = u32_at(part_of(trak, p.offsets), 12);
    let descriptions = u32_at(part_of(trak, p.stsd), 12);
    let stsc = part_of(trak, p.stsc);
    let b = may_count(part_of(trak, p.ctts), samples);
    let d = both(b, deals_samples(stsc, chunks, descriptions, samples));
    !both(d, syncs_agree(part_of(trak, p.stss), samples))
}

// Whether the edits' durations total over 4,294,967,295.
fn is_over(elst: &[u8]) -> bool
    ensures { result ≡ ltb 4294967295 (edit_total elst.now) }
{
    match edits_total(elst) {
        Some(_) => false,
        None => true,
    }
}

// The track's ID.
pub fn id_in(trak: &[u8], p: Parts) -> u32
    requires { AreParts trak.now p }
    ensures { result ≡ id_of trak.now }
{
    u32_at(part_of(trak, p.tkhd), 20)
}

// The media time scale.
pub fn scale_in(trak: &[u8], p: Parts) -> u32
    requires { AreParts trak.now p }
    ensures { result ≡ scale_of trak.now }
{
    u32_at(part_of(trak, p.mdhd), 20)
}

// The component subtype.
pub fn subtype_in(trak: &[u8], p: Parts) -> u32
    requires { AreParts trak.now p }
    ensures { result ≡ subtype_of trak.now }
{
    u32_at(part_of(trak, p.hdlr), 16)
}

// The least size of a description, and that of one of pictures.
const LEAST_SIZE: usize = 16;

const LEAST_VIDE_SIZE: usize = 36;

// The least size of a description in a track of that subtype.
pub fn least_size(subtype: u32) -> usize
    ensures { result ≡ least_size subtype }
{
    if subtype == kinds::VIDE {
        LEAST_VIDE_SIZE
    } else {
        LEAST_SIZE
    }
}

// Whether mdhd states another duration than the total, where that is asked for.
fn has_other_duration(trak: &[u8], p: Parts, total: u32, source: Source) -> bool
    requires { (AreParts trak.now p) × (total ≡ total_in trak.now) }
    ensures { result ≡ other_duration source trak.now }
{
    let stored = u32_at(part_of(trak, p.mdhd), 24);
    both(source.strict, stored != total)
}

// Whether a description's samples are in another file, or nowhere.
fn has_data_elsewhere(trak: &[u8], p: Parts) -> bool
    requires { AreParts trak.now p }
    ensures { result ≡ data_elsewhere trak.now }
{
    let least = least_size(subtype_in(trak, p));
    let dref = part_of(trak, p.dref);
    !all_in_this_file(dref, part_of(trak, p.stsd), least)
}

// 10 to 13 and 19, in the order of judging, of a track whose durations total `total`.
fn timed_refusal(
    trak: &[u8],
    p: Parts,
    movie: u32,
    len: u64,
    source: Source,
    total: u32,
) -> Result<(), Refusal>
    requires { (AreParts trak.now p) × ((total ≡ total_in trak.now) × (length trak.now < 2 ^ 32)) }
    ensures { code result ≡ of_track (timed_rows source movie len) trak.now }
{
    let elst = part_of(trak, p.elst);
    if is_over(elst) {
        return Err(Refusal::TotalTooLarge);
    }
    if has_other_duration(trak, p, total, source) {
        return Err(Refusal::OtherDuration);
    }
    if has_data_elsewhere(trak, p) {
        return Err(Refusal::DataElsewhere);
    }
    let stsz = part_of(trak, p.stsz);
    if !chunks_end_within(part_of(trak, p.stsc), stsz, part_of(trak, p.offsets), len) {
        return Err(Refusal::ChunkPastEnd);
    }
    if !edits_ok(elst, scale_in(trak, p), movie, total) {
        return Err(Refusal::WrongEdits);
    }
    Ok(())
}

// The first of 7 to 13 and 19 that applies to a track, in a movie of that time scale and a file of that length, by that source.
pub fn refusal(trak: &[u8], p: Parts, movie: u32, len: u64, source: Source) -> Result<(), Refusal>
    requires { (AreParts trak.now p) × (length trak.now < 2 ^ 32) }
    ensures { code result ≡ of_track (track_rows source movie len) trak.now }
{
    if id_in(trak, p) == 0 {
        return Err(Refusal::TrackId);
    }
    if scale_in(trak, p) == 0 {
        return Err(Refusal::ZeroScale);
    }
    let samples = u32_at(part_of(trak, p.stsz), 16);
    let Some(total) = count_and_total(part_of(trak, p.stts), samples) else {
        return Err(Refusal::Contradiction);
    };
    if is_contradictory(trak, p) {
        return Err(Refusal::Contradiction);
    }
    if 4294967295 < total {
        return Err(Refusal::TotalTooLarge);
    }
    timed_refusal(trak, p, movie, len, source, total as u32)
}
