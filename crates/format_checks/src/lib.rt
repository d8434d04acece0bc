// The formats that a track's own profile names, against those of its stsd.
#![tactic(auto)]

ghost use Rattle.std.specs.Prelude.{◌≡◌, ◌&&◌, eqb};
ghost use Rattle.words.specs.Words.{listed};
ghost use Rattle.descriptions.specs.Descriptions.{descriptions};
ghost use Rattle.places.specs.Places.{AreParts};
ghost use Rattle.track.specs.Track.{track_of};
ghost use Rattle.profiles.specs.Profiles.{kept_of};
ghost use Rattle.feature_checks.specs.Records.{record_value};
ghost use Rattle.format_checks.specs.Formats.{names_format, formats, format_values, lacks_one, is_missing, format_fault};

use atoms::kinds;
use bigendian::{after, u32_at};
use feature_checks::is_universal;
use features::SOUN;
use leaves::entry_size;
use places::part_of;
use places::trak::Parts;
use track::{least_size, subtype_in};

// The codes of the records that name a format.
const VFMT: u32 = 0x76666d74;

const AFMT: u32 = 0x61666d74;

// Whether the record that a part begins with is a universal vfmt or afmt record, not passed over in a track of that subtype.
fn names_format(subtype: u32, t: &[u8]) -> bool
    ensures { result ≡ names_format subtype t.now }
{
    if !is_universal(t) {
        return false;
    }
    let code = u32_at(t, 8);
    match code {
        VFMT => subtype == kinds::VIDE,
        AFMT => subtype == SOUN,
        _ => false,
    }
}

// Whether it names that format.
fn record_names(subtype: u32, t: &[u8], format: u32) -> bool
    ensures { result ≡ (names_format subtype t.now && eqb (record_value t.now) format) }
{
    if !names_format(subtype, t) {
        return false;
    }
    u32_at(t, 12) == format
}

// Whether a record of the profile names that format.
fn is_named(subtype: u32, profile: &[u8], format: u32) -> bool
    ensures { result ≡ listed format (format_values subtype (kept_of profile.now)) }
{
    let mut t = after(profile, 16);
    while 16 <= t.len() {
        if record_names(subtype, t, format) {
            return true;
        }
        t = &t[16..];
    }
    false
}

// Whether a description has that format.
fn has_format(stsd: &[u8], least: usize, format: u32) -> bool
    ensures { result ≡ listed format (formats (descriptions least stsd.now)) }
{
    let part = after(stsd, 16);
    let mut t = part;
    loop {
        let z = entry_size(t, least);
        if z == 0 {
            return false;
        }
        let d = &t[..z];
        if u32_at(d, 4) == format {
            return true;
        }
        t = &t[z..];
    }
}

// Whether the format of one of the descriptions is not named in the profile.
fn lacks_one(subtype: u32, profile: &[u8], stsd: &[u8], least: usize) -> bool
    ensures { result ≡ lacks_one (format_values subtype (kept_of profile.now)) (formats (descriptions least stsd.now)) }
{
    let part = after(stsd, 16);
    let mut t = part;
    loop {
        let z = entry_size(t, least);
        if z == 0 {
            return false;
        }
        let d = &t[..z];
        if !is_named(subtype, profile, u32_at(d, 4)) {
            return true;
        }
        t = &t[z..];
    }
}

// Whether a format of the track's stsd is missing in its profile.
pub fn is_missing(trak: &[u8], p: Parts) -> bool
    requires { AreParts trak.now p }
    ensures { result ≡ is_missing (track_of trak.now) }
{
    let subtype = subtype_in(trak, p);
    let least = least_size(subtype);
    lacks_one(
        subtype,
        part_of(trak, p.profile),
        part_of(trak, p.stsd),
        least,
    )
}

// Whether the record names a format and is at fault: stsd has not that format, or one of its formats is missing in the profile.
pub fn format_fault(trak: &[u8], p: Parts, missing: bool, t: &[u8]) -> bool
    requires { AreParts trak.now p }
    ensures { result ≡ format_fault (track_of trak.now) missing t.now }
{
    let subtype = subtype_in(trak, p);
    if !names_format(subtype, t) {
        return false;
    }
    if missing {
        return true;
    }
    let least = least_size(subtype);
    !has_format(part_of(trak, p.stsd), least, u32_at(t, 12))
}
