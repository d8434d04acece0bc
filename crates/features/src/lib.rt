// Features of a track: rates, rounded up, and the greatest picture.
#![tactic(auto)]

ghost use Rattle.std.specs.Prelude.{◌≡◌, ◌<◌, ◌^◌, length};
ghost use Rattle.atoms.specs.Kinds.{vide};
ghost use Rattle.structure.specs.Track.{subtype_of};
ghost use Rattle.places.specs.Places.{AreParts};
ghost use Rattle.track.specs.Track.{track_of};
ghost use Rattle.track.specs.Refusals.{total_in};
ghost use Rattle.peaks.specs.Peaks.{rate_in};
ghost use Rattle.features.specs.Features.{whole_average, average, picture, frames, feature_of, peak_only_in, peak_for, Computable, Averaged};

use atoms::kinds;
use averages::edited_average;
use bigendian::u32_at;
use descriptions::{description_count, greatest_size};
use peaks::{Peak, peak_of};
use places::part_of;
use places::trak::Parts;
use rates::rate;
use runs::least_duration;
use track::{media_total, scale_in, subtype_in};
use words::all_bytes;

// The codes of the features, and the subtype of sound.
pub const AVVB: u32 = 0x61767662;

pub const AVAB: u32 = 0x61766162;

pub const TVSZ: u32 = 0x7476737a;

pub const VFPS: u32 = 0x76667073;

pub const MVBR: u32 = 0x6d766272;

pub const MABR: u32 = 0x6d616272;

pub const SOUN: u32 = 0x736f756e;

// The average rate of the whole media, in bits a second.
fn whole_average(trak: &[u8], p: Parts) -> Option<u32>
    requires { (AreParts trak.now p) × (length trak.now < 2 ^ 32) × (total_in trak.now < 4294967296) }
    ensures { result ≡ whole_average (track_of trak.now) }
{
    let bytes = all_bytes(part_of(trak, p.stsz));
    let eight = 8 * (scale_in(trak, p) as u64);
    rate(bytes, eight, media_total(trak, p) as u64)
}

// The average rate of what the edit list shows; of the whole media without one.
fn average_rate(trak: &[u8], p: Parts, movie: u32) -> Option<u32>
    requires { (AreParts trak.now p) × Averaged movie trak.now }
    ensures { result ≡ average movie (track_of trak.now) }
{
    let elst = part_of(trak, p.elst);
    if elst.len() == 0 {
        return whole_average(trak, p);
    }
    let stts = part_of(trak, p.stts);
    let stsz = part_of(trak, p.stsz);
    edited_average(stts, stsz, elst, scale_in(trak, p), movie)
}

// The greatest width and height of a track of pictures.
fn picture_size(trak: &[u8], p: Parts) -> Option<u32>
    requires { (AreParts trak.now p) × (subtype_of trak.now ≡ vide) }
    ensures { result ≡ picture (track_of trak.now) }
{
    let stsd = part_of(trak, p.stsd);
    if description_count(stsd, 36) == 0 {
        return None;
    }
    let size = greatest_size(stsd);
    Some((size.width as u32) * 65536 + size.height as u32)
}

// The greatest number of frames a second, by the least duration of a sample.
fn frame_rate(trak: &[u8], p: Parts) -> Option<u32>
    requires { AreParts trak.now p }
    ensures { result ≡ frames (track_of trak.now) }
{
    let least = least_duration(part_of(trak, p.stts));
    rate(65536, scale_in(trak, p) as u64, least as u64)
}

// The highest rate over a second, and where it is, of a track of one subtype.
fn peak_only_in(trak: &[u8], p: Parts, wanted: u32) -> Option<Peak>
    requires { (AreParts trak.now p) × Computable trak.now }
    ensures { result ≡ peak_only_in wanted (track_of trak.now) }
{
    if subtype_in(trak, p) != wanted {
        return None;
    }
    peak_of(
        part_of(trak, p.stts),
        part_of(trak, p.stsz),
        scale_in(trak, p),
    )
}

// The same by the code of the feature.
pub fn peak_for(trak: &[u8], p: Parts, code: u32) -> Option<Peak>
    requires { (AreParts trak.now p) × Computable trak.now }
    ensures { result ≡ peak_for (track_of trak.now) code }
{
    match code {
        MVBR => peak_only_in(trak, p, kinds::VIDE),
        MABR => peak_only_in(trak, p, SOUN),
        _ => None,
    }
}

// Its rate alone.
fn peak_rate(trak: &[u8], p: Parts, code: u32) -> Option<u32>
    requires { (AreParts trak.now p) × Computable trak.now }
    ensures { result ≡ rate_in (peak_for (track_of trak.now) code) }
{
    let peak = peak_for(trak, p, code)?;
    Some(peak.rate)
}

// A feature of a track, by its code, where it can be computed. `movie` is the movie's time scale.
pub fn feature_of(trak: &[u8], p: Parts, movie: u32, code: u32) -> Option<u32>
    requires { (AreParts trak.now p) × Computable trak.now × Averaged movie trak.now }
    ensures { result ≡ feature_of movie (track_of trak.now) code }
{
    let kind = subtype_in(trak, p);
    match code {
        AVVB => {
            if kind == kinds::VIDE {
                return average_rate(trak, p, movie);
            }
            None
        }
        AVAB => {
            if kind == SOUN {
                return average_rate(trak, p, movie);
            }
            None
        }
        TVSZ => {
            if kind == kinds::VIDE {
                return picture_size(trak, p);
            }
            None
        }
        VFPS => {
            if kind == kinds::VIDE {
                return frame_rate(trak, p);
            }
            None
        }
        MVBR => peak_rate(trak, p, code),
        MABR => peak_rate(trak, p, code),
        _ => None,
    }
}
