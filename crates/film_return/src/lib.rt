// The film return: totals over many films, each judged and added whole or not at all.
#![tactic(auto)]

ghost use Rattle.std.specs.Prelude.{◌≡◌, ◌<◌, ◌^◌, length};
ghost use Rattle.structure.specs.Movie.{moov_of, tracks_of};
ghost use Rattle.places.specs.Places.{AreParts};
ghost use Rattle.track.specs.Refusals.{total_in};
ghost use Rattle.film_return.specs.Films.{totals_of, Files};
ghost use Rattle.film_return.specs.Adding.{Addable, AddsTracks};

use bigendian::u32_at;
use places::moov::{Traks, trak_at};
use places::part_of;
use places::trak::Parts;
use return_totals::{Filed, FilmReturn, TrackTotals, add_accepted, add_refused, add_track, settle};
use structure::source::Source;
use track::{media_total, scale_in};
use words::all_bytes;

// What the return counts of a track.
fn totals_of(trak: &[u8], p: Parts) -> TrackTotals
    requires { (AreParts trak.now p) × (length trak.now < 2 ^ 32) × (total_in trak.now < 4294967296) }
    ensures { result ≡ totals_of trak.now }
{
    let stsz = part_of(trak, p.stsz);
    TrackTotals {
        scale: scale_in(trak, p),
        total: media_total(trak, p) as u64,
        samples: u32_at(stsz, 16) as u64,
        bytes: all_bytes(stsz),
    }
}

// The tracks of a film, from its traks, added to the return of the film so far.
fn add_tracks(f: Filed, lent: &[u8], traks: Traks) -> Filed
    requires { Addable lent.now traks }
    ensures { AddsTracks f (tracks_of (moov_of lent.now)) result }
{
    let count = traks.count;
    let mut g = f;
    let mut i: usize = 0;
    while i < count {
        let trak = trak_at(traks, i);
        let body = trak.body;
        let next = add_track(g, totals_of(part_of(lent, body), trak.parts));
        g = next;
        i += 1;
    }
    g
}

// Adds a film to a return, one that is refused under its number. 20 and 21 leave the return as it was.
pub fn add_film(r: FilmReturn, lent: &[u8], source: Source) -> Filed
    ensures { Files r lent.now source result }
{
    match movie::judge(lent, source) {
        Err(refusal) => settle(r, add_refused(r, u32::from(refusal))),
        Ok(movie) => settle(r, add_tracks(add_accepted(r), lent, movie.traks)),
    }
}
