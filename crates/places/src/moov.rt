// The parts of a movie, found in one walk over its moov: its header and profile, and each trak with the parts of its own.
ghost use Rattle.std.specs.Prelude.{◌≡◌, ◌<◌, get_or};
ghost use Rattle.places.specs.Places.{part_in, no_trak};
ghost use Rattle.places.specs.Movies.{AreMovieHeads, FindsMovieHeads, no_traks, with_trak};

use super::trak::{Trak, no_trak, of_version_0};
use super::{Part, first_part, part_of};
use atoms::{kinds, size_in};
use bigendian::u32_at;

// The header of a movie and its own profile, empty where it has none.
#[derive(Clone, Copy)]
pub struct MovieHeads {
    pub mvhd: Part,
    pub profile: Part,
}

// The first traks of a movie, up to 16, and how many there are: 17 where there are more than 16.
#[derive(Clone, Copy)]
pub struct Traks {
    pub count: usize,
    pub of: [Trak; 16],
}

#[derive(Clone, Copy)]
pub struct Movie {
    pub heads: MovieHeads,
    pub traks: Traks,
}

// The header of the movie with that body of its moov, and the first prfl before it, in a walk that stops at the header.
fn find_movie_heads(lent: &[u8], moov: Part) -> MovieHeads
    ensures { FindsMovieHeads lent.now (part_in lent.now moov) result }
{
    let body = part_of(lent, moov);
    let mut t = body;
    let mut at = moov.at;
    let none = Part { at: 0, len: 0 };
    let mut profile = none;
    loop {
        let n = size_in(t, kinds::MOOV);
        if n < 8 {
            return MovieHeads {
                mvhd: none,
                profile,
            };
        }
        let kind = u32_at(t, 4);
        let next = Part { at, len: n };
        if kind == kinds::MVHD {
            return MovieHeads {
                mvhd: next,
                profile,
            };
        }
        profile = first_part(profile, kinds::PRFL, kind, next);
        at += n;
        t = &t[n..];
    }
}

// The header and the profile of the movie with that body of its moov.
pub fn movie_heads(lent: &[u8], moov: Part) -> MovieHeads
    ensures { AreMovieHeads lent.now (part_in lent.now moov) result }
{
    let found = find_movie_heads(lent, moov);
    let mvhd = found.mvhd;
    let prfl = found.profile;
    let profile = of_version_0(lent, prfl);
    MovieHeads { mvhd, profile }
}

pub fn no_traks() -> Traks
    ensures { result ≡ no_traks }
{
    let none = no_trak();
    Traks {
        count: 0,
        of: [none; 16],
    }
}

// The traks with one more.
pub fn with_trak(f: Traks, next: Trak) -> Traks
    ensures { result ≡ with_trak f next }
{
    let n = f.count;
    let mut of = f.of;
    if 16 <= n {
        return Traks { count: 17, of };
    }
    of[n] = next;
    Traks { count: n + 1, of }
}

pub fn trak_at(f: Traks, i: usize) -> Trak
    requires { i < 16 }
    ensures { result ≡ get_or f.of i no_trak }
{
    let of = f.of;
    of[i]
}
