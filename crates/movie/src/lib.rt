// A film: refusals 1 to 13 and 19 as one answer.
#![tactic(auto)]

mod tracks;

ghost use Rattle.std.specs.Prelude.{◌≡◌, ◌<◌, ◌^◌, length};
ghost use Rattle.refusals.specs.Refusals.{code};
ghost use Rattle.structure.specs.Movie.{moov_of, tracks_of, movie_scale};
ghost use Rattle.structure.specs.Rows.{of_whole};
ghost use Rattle.shape.specs.Judging.{Judges};
ghost use Rattle.movie.specs.Traks.{FewTraks};
ghost use Rattle.movie.specs.Refusals.{film_refusal};
ghost use Rattle.movie.specs.TableRows.{table_rows, tables_refusal};

use bigendian::u32_at;
use places::moov::{Movie, Traks, trak_at};
use places::part_of;
use refusals::Refusal;
use structure::earlier_refusal;
use structure::source::Source;
use tracks::ids_repeat;

// What 7 and 8 say of the movie itself: an ID that occurs twice, a time scale of 0.
fn own_refusal(
    lent: &[u8],
    traks: Traks,
    scale: u32,
    len: u64,
    source: Source,
) -> Result<(), Refusal>
    requires { FewTraks lent.now (tracks_of (moov_of lent.now)) traks × (scale ≡ movie_scale (moov_of lent.now)) }
    ensures { code result ≡ of_whole (table_rows source scale len) (moov_of lent.now) }
{
    if ids_repeat(lent, traks) {
        return Err(Refusal::TrackId);
    }
    if scale == 0 {
        return Err(Refusal::ZeroScale);
    }
    Ok(())
}

// The first of 7 to 13 and 19, in the order of judging, that applies to a movie, from its traks, its time scale, the length of its file and its source.
fn tables_refusal(
    lent: &[u8],
    traks: Traks,
    scale: u32,
    len: u64,
    source: Source,
) -> Result<(), Refusal>
    requires { FewTraks lent.now (tracks_of (moov_of lent.now)) traks × (scale ≡ movie_scale (moov_of lent.now)) × (length lent.now < 2 ^ 32) }
    ensures { code result ≡ tables_refusal source len (moov_of lent.now) }
{
    let count = traks.count;
    let mut found = own_refusal(lent, traks, scale, len, source);
    let mut i: usize = 0;
    while i < count {
        let trak = trak_at(traks, i);
        let body = trak.body;
        let next = track::refusal(part_of(lent, body), trak.parts, scale, len, source);
        found = earlier_refusal(found, next);
        i += 1;
    }
    found
}

// Judges a film by 1 to 13 and 19: the parts of its movie, or its refusal.
pub fn judge(lent: &[u8], source: Source) -> Result<Movie, Refusal>
    ensures { Judges lent.now (film_refusal lent.now source) result }
{
    let movie = shape::judge(lent, source)?;
    let heads = movie.heads;
    let scale = u32_at(part_of(lent, heads.mvhd), 20);
    tables_refusal(lent, movie.traks, scale, source.length_of(lent), source)?;
    Ok(movie)
}

// The refusal of a film: the first of 1 to 13 and 19 in the order of judging that applies.
pub fn refusal(lent: &[u8], source: Source) -> Result<(), Refusal>
    ensures { code result ≡ film_refusal lent.now source }
{
    judge(lent, source)?;
    Ok(())
}
