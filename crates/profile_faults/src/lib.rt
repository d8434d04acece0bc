// The first record at fault of a track's own profile: each against the feature or the formats that it speaks of.
#![tactic(auto)]

ghost use Rattle.std.specs.Prelude.{◌≡◌};
ghost use Rattle.places.specs.Places.{AreParts};
ghost use Rattle.track.specs.Track.{track_of};
ghost use Rattle.features.specs.Features.{Computable, Averaged};
ghost use Rattle.profile_faults.specs.Faults.{profile_fault};

use bigendian::{after, u32_at};
use feature_checks::{judge_feature, no_bounds};
use format_checks::{format_fault, is_missing};
use places::part_of;
use places::trak::Parts;

// The place of the first record at fault, from 1; 0 where there is none.
pub fn first_fault(trak: &[u8], p: Parts, movie: u32) -> usize
    requires { (AreParts trak.now p) × Computable trak.now × Averaged movie trak.now }
    ensures { result ≡ profile_fault movie (track_of trak.now) }
{
    let missing = is_missing(trak, p);
    let mut bounds = no_bounds();
    let mut t = after(part_of(trak, p.profile), 16);
    let mut place = 1;
    while 16 <= t.len() {
        if u32_at(t, 8) != 0 {
            if format_fault(trak, p, missing, t) {
                return place;
            }
            let judged = judge_feature(trak, p, movie, t, bounds);
            if judged.fault {
                return place;
            }
            bounds = judged.bounds;
            place += 1;
        }
        t = &t[16..];
    }
    0
}
