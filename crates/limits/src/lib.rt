// How many tracks, samples, chunks, edits, descriptions, data references and records there are: refusal 6.
#![tactic(auto)]

ghost use Rattle.std.specs.Prelude.{◌≡◌, ◌||◌, ltb};
ghost use Rattle.bigendian.specs.BigEndian.{u32_at};
ghost use Rattle.structure.specs.Track.{profile_of};
ghost use Rattle.places.specs.Places.{AreParts};
ghost use Rattle.limits.specs.Limits.{over_limits};

use bigendian::u32_at;
use places::part_of;
use places::trak::Parts;

// Of a track, from the body of its trak, its parts and its profile.
#[tactic(auto, unfolding(crate::specs::Limits::over_limits))]
pub fn is_over_limits(trak: &[u8], p: Parts, profile: &[u8]) -> bool
    requires { (AreParts trak.now p) × (profile.now ≡ profile_of trak.now) }
    ensures { result ≡ over_limits trak.now }
{
    u32_at(part_of(trak, p.stsz), 16) > 1048576
        || u32_at(part_of(trak, p.offsets), 12) > 1048576
        || u32_at(part_of(trak, p.elst), 12) > 256
        || u32_at(part_of(trak, p.stsd), 12) > 64
        || u32_at(profile, 12) > 64
        || u32_at(part_of(trak, p.dref), 12) > 64
}

// Of a movie, from the number of its tracks and its profile.
pub fn is_too_many(tracks: usize, profile: &[u8]) -> bool
    ensures { result ≡ (ltb 16 tracks || ltb 64 (u32_at profile.now 12)) }
{
    tracks > 16 || u32_at(profile, 12) > 64
}
