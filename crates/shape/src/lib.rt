// The shape of a film: refusals 1 to 6.
#![tactic(auto)]

ghost use Rattle.std.specs.Prelude.{◌≡◌, length, ltb};
ghost use Rattle.refusals.specs.Refusals.{code};
ghost use Rattle.structure.specs.Rows.{of_whole};
ghost use Rattle.structure.specs.ByTracks.{of_track};
ghost use Rattle.structure.specs.Movie.{tracks_of, movie_profile};
ghost use Rattle.places.specs.Places.{part_in, AreParts};
ghost use Rattle.shape.specs.Judging.{Walks, JudgesMovie, Judges};
ghost use Rattle.shape.specs.Refusals.{file_too_long, one_moov, wrong_atoms};
ghost use Rattle.shape.specs.MovieRows.{filled_tree, versioned_movie, sized_movie, movie_rows, refusal_of};

use atoms::{kinds, size_in};
use bigendian::u32_at;
use leaf_checks::{is_profile_sized, is_wrong_track_size};
use limits::{is_over_limits, is_too_many};
use places::moov::{Movie, Traks, movie_heads, no_traks, with_trak};
use places::trak::{Parts, trak_of};
use places::{Part, body_part, moov_part, part_of};
use presence::both;
use refusals::Refusal;
use structure::source::Source;
use structure::{earlier_refusal, either};
use tree::check_tree;

// The most bytes that are lent, and the longest file of a moov alone.
const MOST_LENT: usize = 2147483647;

const LONGEST_FILE: u64 = 9223372036854775807;

// How many levels a file has.
const FILE_LEVELS: u32 = 6;

// 1.
fn is_too_long(lent: &[u8], source: Source) -> bool
    ensures { result ≡ file_too_long source lent.now }
{
    if MOST_LENT < lent.len() {
        return true;
    }
    if !source.alone {
        return false;
    }
    let length = source.length;
    either(LONGEST_FILE < length, length < lent.len() as u64)
}

// Whether the lent bytes are one moov atom.
fn is_one_moov(lent: &[u8]) -> bool
    ensures { result ≡ one_moov lent.now }
{
    let size = size_in(lent, kinds::FILE);
    let kind = u32_at(lent, 4);
    both(size == lent.len(), kind == kinds::MOOV)
}

// 2, where it is known whether atoms fill every body.
fn has_wrong_atoms(lent: &[u8], source: Source, filled: bool) -> bool
    requires { filled ≡ filled_tree lent.now }
    ensures { result ≡ wrong_atoms source lent.now }
{
    if !filled {
        return true;
    }
    if !source.alone {
        return false;
    }
    !is_one_moov(lent)
}

// The refusal that a movie gives without its tracks' own, where it is known whether its read leaves have their versions and sizes, from its profile and
// the number of its tracks.
fn own_refusal(
    moov: &[u8],
    wide: bool,
    versions: bool,
    sizes: bool,
    profile: &[u8],
    tracks: usize,
) -> Result<(), Refusal>
    requires { (versions ≡ versioned_movie wide moov.now) × (sizes ≡ sized_movie wide moov.now) × (profile.now ≡ movie_profile moov.now) × (ltb 16 tracks ≡ ltb 16 (length (tracks_of moov.now))) }
    ensures { code result ≡ of_whole (movie_rows wide) moov.now }
{
    if !versions {
        return Err(Refusal::UnknownVersion);
    }
    if !both(sizes, is_profile_sized(profile)) {
        return Err(Refusal::WrongSize);
    }
    if is_too_many(tracks, profile) {
        return Err(Refusal::OverLimits);
    }
    Ok(())
}

// The refusal that a track gives by itself, from the body of its trak and its parts.
fn track_refusal(trak: &[u8], parts: Parts, wide: bool) -> Result<(), Refusal>
    requires { AreParts trak.now parts }
    ensures { code result ≡ of_track (movie_rows wide) trak.now }
{
    let profile = part_of(trak, parts.profile);
    if is_wrong_track_size(trak, parts, profile) {
        return Err(Refusal::WrongSize);
    }
    if is_over_limits(trak, parts, profile) {
        return Err(Refusal::OverLimits);
    }
    Ok(())
}

// The traks of a movie, and the earliest refusal that a track gives by itself.
#[derive(Clone, Copy)]
struct Walked {
    pub refusal: Result<(), Refusal>,
    pub traks: Traks,
}

// In one walk over the body of the moov.
fn walk_traks(lent: &[u8], moov: Part, wide: bool) -> Walked
    ensures { Walks wide lent.now (part_in lent.now moov) result }
{
    let body = part_of(lent, moov);
    let mut t = body;
    let mut at = moov.at;
    let mut refusal = Ok(());
    let mut traks = no_traks();
    loop {
        let n = size_in(t, kinds::MOOV);
        if n < 8 {
            return Walked { refusal, traks };
        }
        if u32_at(t, 4) == kinds::TRAK {
            let trak = trak_of(lent, body_part(lent, Part { at, len: n }));
            let place = trak.body;
            let parts = trak.parts;
            refusal = earlier_refusal(refusal, track_refusal(part_of(lent, place), parts, wide));
            traks = with_trak(traks, trak);
        }
        at += n;
        t = &t[n..];
    }
}

// Of a movie, from the place of its moov's body: the refusal is the earliest of its own and of each track's.
fn judge_movie(
    lent: &[u8],
    moov: Part,
    wide: bool,
    versions: bool,
    sizes: bool,
) -> Result<Movie, Refusal>
    requires { (versions ≡ versioned_movie wide (part_in lent.now moov)) × (sizes ≡ sized_movie wide (part_in lent.now moov)) }
    ensures { JudgesMovie wide lent.now (part_in lent.now moov) result }
{
    let heads = movie_heads(lent, moov);
    let walked = walk_traks(lent, moov, wide);
    let traks = walked.traks;
    let profile = heads.profile;
    let own = own_refusal(
        part_of(lent, moov),
        wide,
        versions,
        sizes,
        part_of(lent, profile),
        traks.count,
    );
    earlier_refusal(own, walked.refusal)?;
    Ok(Movie { heads, traks })
}

// Judges a film: its refusal is the first of 1 to 6 that applies; where none does, the parts of its movie.
pub fn judge(lent: &[u8], source: Source) -> Result<Movie, Refusal>
    ensures { Judges lent.now (refusal_of source lent.now) result }
{
    if is_too_long(lent, source) {
        return Err(Refusal::TooLong);
    }
    let tree = check_tree(lent, kinds::FILE, FILE_LEVELS, source.alone);
    if has_wrong_atoms(lent, source, tree.filled) {
        return Err(Refusal::BrokenAtom);
    }
    if !tree.present {
        return Err(Refusal::AtomCount);
    }
    judge_movie(
        lent,
        moov_part(lent),
        source.alone,
        tree.versions,
        tree.sizes,
    )
}
