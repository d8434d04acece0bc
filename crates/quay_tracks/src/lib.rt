// The lowest rule of the quay film profile that a track breaks.
#![tactic(auto)]

ghost use Rattle.std.specs.Prelude.{◌≡◌};
ghost use Rattle.structure.specs.ByTracks.{of_track};
ghost use Rattle.places.specs.Places.{AreParts};
ghost use Rattle.quay_tracks.specs.Profile.{many_edits, other_descriptions, has_ctts, few_syncs, quay_rules};
ghost use Rattle.quay_tracks.specs.Judged.{Judgeable, from_sixth};

use bigendian::u32_at;
use chunk_order::is_disordered;
use features::{VFPS, feature_of};
use places::part_of;
use places::trak::Parts;
use quay_rules::{has_zero_duration, has_zero_size, is_too_fast, lacks_syncs};

// 2: more than one edit entry.
fn has_many_edits(trak: &[u8], p: Parts) -> bool
    requires { AreParts trak.now p }
    ensures { result ≡ many_edits trak.now }
{
    1 < u32_at(part_of(trak, p.elst), 12)
}

// 3: no description, or more than one.
fn has_other_descriptions(trak: &[u8], p: Parts) -> bool
    requires { AreParts trak.now p }
    ensures { result ≡ other_descriptions trak.now }
{
    u32_at(part_of(trak, p.stsd), 12) != 1
}

// 4: a ctts, be it empty.
fn has_ctts(trak: &[u8], p: Parts) -> bool
    requires { AreParts trak.now p }
    ensures { result ≡ has_ctts trak.now }
{
    part_of(trak, p.ctts).len() != 0
}

// 5: no samples, the first sample not sync, or too many samples from a sync one up to the next.
fn has_few_syncs(trak: &[u8], p: Parts, movie: u32) -> bool
    requires { (AreParts trak.now p) × Judgeable movie trak.now }
    ensures { result ≡ few_syncs trak.now }
{
    let stss = part_of(trak, p.stss);
    lacks_syncs(stss, u32_at(part_of(trak, p.stsz), 16))
}

// 6 to 9: sizes and durations of 0, the chunks' order, and the frames a second.
fn table_rule(trak: &[u8], p: Parts, movie: u32) -> u32
    requires { (AreParts trak.now p) × Judgeable movie trak.now }
    ensures { result ≡ from_sixth movie trak.now }
{
    let stsz = part_of(trak, p.stsz);
    if has_zero_size(stsz) {
        return 6;
    }
    if has_zero_duration(part_of(trak, p.stts)) {
        return 7;
    }
    if is_disordered(part_of(trak, p.stsc), stsz, part_of(trak, p.offsets)) {
        return 8;
    }
    if is_too_fast(feature_of(trak, p, movie, VFPS)) {
        return 9;
    }
    0
}

// The lowest rule that the track with that trak breaks, in a movie of that time scale; 0 where it breaks none.
pub fn track_rule(trak: &[u8], p: Parts, movie: u32) -> u32
    requires { (AreParts trak.now p) × Judgeable movie trak.now }
    ensures { result ≡ of_track (quay_rules movie) trak.now }
{
    if has_many_edits(trak, p) {
        return 2;
    }
    if has_other_descriptions(trak, p) {
        return 3;
    }
    if has_ctts(trak, p) {
        return 4;
    }
    if has_few_syncs(trak, p, movie) {
        return 5;
    }
    table_rule(trak, p, movie)
}
