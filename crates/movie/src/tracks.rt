// The IDs of a movie's tracks, from its traks.
ghost use Rattle.std.specs.Prelude.{◌≡◌, ◌≤◌, length, take};
ghost use Rattle.words.specs.Words.{listed};
ghost use Rattle.structure.specs.Track.{id_of};
ghost use Rattle.structure.specs.Movie.{moov_of, tracks_of};
ghost use Rattle.places.specs.Places.{part_in, AreParts};
ghost use Rattle.movie.specs.Tracks.{ids_of, repeats};
ghost use Rattle.movie.specs.Traks.{FewTraks};

use places::moov::{Traks, trak_at};
use places::part_of;
use places::trak::Trak;

// The ID of the track with that trak.
fn id_of(lent: &[u8], trak: Trak) -> u32
    requires { AreParts (part_in lent.now trak.body) trak.parts }
    ensures { result ≡ id_of (part_in lent.now trak.body) }
{
    let body = trak.body;
    track::id_in(part_of(lent, body), trak.parts)
}

// Whether an ID is among the first n of some.
fn is_among(ids: &[u32; 16], n: usize, id: u32) -> bool
    requires { (length ids.now ≡ 16) × (n ≤ 16) }
    ensures { result ≡ listed id (take n ids.now) }
{
    let mut i: usize = 0;
    while i < n {
        if ids[i] == id {
            return true;
        }
        i += 1;
    }
    false
}

// Whether two tracks have one ID: each is looked for among those before it.
pub(crate) fn ids_repeat(lent: &[u8], traks: Traks) -> bool
    requires { FewTraks lent.now (tracks_of (moov_of lent.now)) traks }
    ensures { result ≡ repeats (ids_of (moov_of lent.now)) }
{
    let count = traks.count;
    let mut ids = [0u32; 16];
    let mut i: usize = 0;
    while i < count {
        let id = id_of(lent, trak_at(traks, i));
        if is_among(&ids, i, id) {
            return true;
        }
        ids[i] = id;
        i += 1;
    }
    false
}
