// The movie's time scale and the duration that mvhd states.
ghost use Rattle.movie_times.specs.Header.{Movies};

use bigendian::u32_at;
use places::part_of;
use refusals::Refusal;
use structure::source::Source;

// A movie's time scale, and its duration in that scale as mvhd states it. Nothing ties the duration to the tracks.
#[derive(Clone, Copy)]
pub struct MovieTimes {
    pub scale: u32,
    pub duration: u32,
}

// The time scale and the stored duration of a film's movie.
pub fn movie_header(lent: &[u8], source: Source) -> Result<MovieTimes, Refusal>
    ensures { Movies lent.now source result }
{
    let film = movie::judge(lent, source)?;
    let heads = film.heads;
    let mvhd = part_of(lent, heads.mvhd);
    Ok(MovieTimes {
        scale: u32_at(mvhd, 20),
        duration: u32_at(mvhd, 24),
    })
}
