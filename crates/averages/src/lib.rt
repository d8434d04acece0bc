// The average rate of what an edit list shows: the samples that each entry covers, added once for each entry. The tables are read as they stand in the
// file. `scale` is the media's time scale and `movie` the movie's.
#![tactic(auto)]

ghost use Rattle.std.specs.Prelude.{◌≡◌, true, ◌<◌, ◌≤◌, ◌^◌, length};
ghost use Rattle.std.specs.Int.Signed.{mag};
ghost use Rattle.lists.specs.Lists.{sum};
ghost use Rattle.runs.specs.Runs.{runs_of, per_sample, hit_of};
ghost use Rattle.words.specs.Words.{sizes};
ghost use Rattle.edits.specs.Edits.{edits, edit_ok};
ghost use Rattle.averages.specs.Averages.{range_at, covered_by, covered, average_over};
ghost use Rattle.averages.specs.Computed.{added_in, added_all, Small, Edited};

use bigendian::after;
use edits::{Edit, EditStart, MediaTime, edit_at, last_place, start_of};
use rates::rate;
use runs::{Hit, look_up};
use words::bytes_between;

// The sizes and the durations of some samples, added.
#[derive(Clone, Copy)]
pub struct Added {
    pub bytes: u64,
    pub units: u64,
}

// What stands at a media time below the total.
fn hit_at(stts: &[u8], t: u32) -> Hit
    requires { (length stts.now < 2 ^ 32) × (t < sum (per_sample stts.now)) }
    ensures { result ≡ hit_of (runs_of stts.now) t }
{
    let Some(hit) = look_up(stts, t) else {
        return Hit {
            index: 0,
            entry: 0,
            start: 0,
            duration: 0,
        };
    };
    hit
}

// The samples from the one at a media time to the one at another.
fn added_between(stts: &[u8], stsz: &[u8], first: MediaTime, last: MediaTime) -> Added
    requires { Small stts.now × (first.0 ≤ last.0) × (last.0 < sum (per_sample stts.now)) }
    ensures { (result ≡ added_in (per_sample stts.now) (sizes stsz.now) (range_at (per_sample stts.now) first.0 last.0)) × (result.bytes ≤ 4503599627370496) × (result.units < 4294967296) }
{
    let from = hit_at(stts, first.0);
    let to = hit_at(stts, last.0);
    Added {
        bytes: bytes_between(stsz, from.index as u32, (to.index + 1) as u32),
        units: to.start + (to.duration as u64) - from.start,
    }
}

// What an entry that is right covers; nothing where it shows nothing.
fn entry_added(stts: &[u8], stsz: &[u8], e: Edit, scale: u32, movie: u32) -> Added
    requires { Small stts.now × (mag e.media < 2 ^ 31) × (edit_ok scale movie (sum (per_sample stts.now)) e ≡ true) }
    ensures { (result ≡ added_all (per_sample stts.now) (sizes stsz.now) (covered_by scale movie (per_sample stts.now) e)) × (result.bytes ≤ 4503599627370496) × (result.units < 4294967296) }
{
    let d = e.duration;
    let media = e.media;
    let p = start_of(media);
    match p {
        EditStart::From(m) => {
            let last = last_place(m, d, scale, movie);
            added_between(stts, stsz, MediaTime(m as u32), last)
        }
        EditStart::Empty => Added { bytes: 0, units: 0 },
        EditStart::Wrong => Added { bytes: 0, units: 0 },
    }
}

// What all entries cover.
fn edits_added(stts: &[u8], stsz: &[u8], elst: &[u8], scale: u32, movie: u32) -> Added
    requires { Small stts.now × Edited scale movie (sum (per_sample stts.now)) (edits elst.now) }
    ensures { result ≡ added_all (per_sample stts.now) (sizes stsz.now) (covered scale movie (per_sample stts.now) (edits elst.now)) }
{
    let mut bytes: u64 = 0;
    let mut units: u64 = 0;
    for entry in after(elst, 16).chunks_exact(12) {
        let a = entry_added(stts, stsz, edit_at(entry), scale, movie);
        bytes += a.bytes;
        units += a.units;
    }
    Added { bytes, units }
}

// The average rate over the samples that the entries cover, in bits a second, where it can be computed.
pub fn edited_average(stts: &[u8], stsz: &[u8], elst: &[u8], scale: u32, movie: u32) -> Option<u32>
    requires { Small stts.now × Edited scale movie (sum (per_sample stts.now)) (edits elst.now) }
    ensures { result ≡ average_over scale (per_sample stts.now) (sizes stsz.now) (covered scale movie (per_sample stts.now) (edits elst.now)) }
{
    let a = edits_added(stts, stsz, elst, scale, movie);
    rate(a.bytes, 8 * (scale as u64), a.units)
}
