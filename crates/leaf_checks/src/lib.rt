// Sizes of profiles and of the descriptions of pictures: what refusal 5 asks beside the size of each read leaf, which the walk over the tree looks at.
#![tactic(auto)]

ghost use Rattle.std.specs.Prelude.{◌≡◌};
ghost use Rattle.leaf_checks.specs.LeafChecks.{profile_ok, short_video_description, wrong_track_size};
ghost use Rattle.structure.specs.Track.{profile_of};
ghost use Rattle.places.specs.Places.{AreParts};

use atoms::kinds;
use bigendian::u32_at;
use leaves::{has_sized_entries, holds_entries};
use places::part_of;
use places::trak::Parts;

// Whether a profile has its size; where there is none, nothing is asked.
#[tactic(auto, unfolding(crate::specs::LeafChecks::profile_ok))]
pub fn is_profile_sized(profile: &[u8]) -> bool
    ensures { result ≡ profile_ok profile.now }
{
    profile.is_empty() || holds_entries(profile, 16, 16, u32_at(profile, 12))
}

// Whether a track of pictures has a description below 36 bytes.
#[tactic(auto, unfolding(crate::specs::LeafChecks::short_video_description, structure::specs::Track::subtype_of))]
fn has_short_video_description(trak: &[u8], p: Parts) -> bool
    requires { AreParts trak.now p }
    ensures { result ≡ short_video_description trak.now }
{
    u32_at(part_of(trak, p.hdlr), 16) == kinds::VIDE
        && !has_sized_entries(part_of(trak, p.stsd), 36)
}

// 5 in a track, from the body of its trak, its parts and its profile.
#[tactic(auto, unfolding(crate::specs::LeafChecks::wrong_track_size))]
pub fn is_wrong_track_size(trak: &[u8], p: Parts, profile: &[u8]) -> bool
    requires { (AreParts trak.now p) × (profile.now ≡ profile_of trak.now) }
    ensures { result ≡ wrong_track_size trak.now }
{
    has_short_video_description(trak, p) || !is_profile_sized(profile)
}
