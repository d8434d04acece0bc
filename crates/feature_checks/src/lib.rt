// The records of a track's own profile that claim a feature, against the feature as it is computed.
#![tactic(auto)]

ghost use Rattle.std.specs.Prelude.{◌≡◌, ◌≤◌, ◌<◌};
ghost use Rattle.places.specs.Places.{AreParts};
ghost use Rattle.track.specs.Track.{track_of};
ghost use Rattle.features.specs.Features.{Computable, Averaged};
ghost use Rattle.feature_checks.specs.Records.{is_universal};
ghost use Rattle.feature_checks.specs.Features.{feature_codes};
ghost use Rattle.feature_checks.specs.Bounds.{index_in, bound_of, is_below, no_bounds, AreBounds, HasBound, Judges};

use bigendian::u32_at;
use features::{AVAB, AVVB, MABR, MVBR, TVSZ, VFPS, feature_of};
use places::trak::Parts;

// The part-ID of a universal record.
const UNIVERSAL: u32 = 0x20202020;

// Whether the record that a part begins with is universal.
pub fn is_universal(t: &[u8]) -> bool
    ensures { result ≡ is_universal t.now }
{
    u32_at(t, 4) == UNIVERSAL
}

// The index of a code among the six, from 0; 6 for any other.
fn code_index(code: u32) -> usize
    ensures { result ≡ index_in code feature_codes }
{
    match code {
        AVVB => 0,
        AVAB => 1,
        MVBR => 2,
        MABR => 3,
        VFPS => 4,
        TVSZ => 5,
        _ => 6,
    }
}

// What a value must reach: the feature, or, where it can't be computed, a number that no value of 32 bits reaches.
fn bound_of(f: Option<u32>) -> u64
    ensures { (result ≡ bound_of f) × (result ≤ 4294967296) }
{
    match f {
        Some(v) => v as u64,
        None => 4294967296,
    }
}

// Whether a value is below its bound; that of tvsz in either half.
fn is_below(code: u32, value: u64, bound: u64) -> bool
    ensures { result ≡ is_below code value bound }
{
    if code != TVSZ {
        return value < bound;
    }
    if value / 65536 < bound / 65536 {
        return true;
    }
    value % 65536 < bound % 65536
}

// One more than the bound of each code whose feature has been computed, 0 for the others: each is computed at most once, and only where a record
// asks for it.
#[derive(Clone, Copy)]
pub struct Bounds {
    pub of: [u64; 6],
}

pub fn no_bounds() -> Bounds
    ensures { result ≡ no_bounds }
{
    Bounds { of: [0; 6] }
}

// The bounds with that of the code at i.
fn with_bound(trak: &[u8], p: Parts, movie: u32, code: u32, i: usize, bounds: Bounds) -> Bounds
    requires are_parts { (AreParts trak.now p) × Computable trak.now × Averaged movie trak.now }
    requires i_value { (i ≡ index_in code feature_codes) × (i < 6) × AreBounds movie (track_of trak.now) bounds }
    ensures { HasBound movie (track_of trak.now) i result }
{
    let mut of = bounds.of;
    if of[i] != 0 {
        return bounds;
    }
    of[i] = 1 + bound_of(feature_of(trak, p, movie, code));
    Bounds { of }
}

// Whether a record is at fault, and the bounds that are known then.
#[derive(Clone, Copy)]
pub struct Judged {
    pub fault: bool,
    pub bounds: Bounds,
}

// The record that a part begins with, of the track, against the feature of its code.
pub fn judge_feature(trak: &[u8], p: Parts, movie: u32, t: &[u8], bounds: Bounds) -> Judged
    requires are_parts { (AreParts trak.now p) × Computable trak.now × Averaged movie trak.now }
    requires are_bounds { AreBounds movie (track_of trak.now) bounds }
    ensures { Judges movie (track_of trak.now) t.now result }
{
    let code = u32_at(t, 8);
    let i = code_index(code);
    if 6 <= i {
        return Judged {
            fault: false,
            bounds,
        };
    }
    if !is_universal(t) {
        return Judged {
            fault: false,
            bounds,
        };
    }
    let all = with_bound(trak, p, movie, code, i, bounds);
    let of = all.of;
    let value = u32_at(t, 12) as u64;
    Judged {
        fault: is_below(code, value, of[i] - 1),
        bounds: all,
    }
}
