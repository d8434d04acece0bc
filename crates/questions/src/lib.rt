// What every question of one track begins with, and the questions of its samples: a sample by its number, and its bytes.
#![tactic(auto)]

pub mod samples;

ghost use Rattle.std.specs.Prelude.{◌≡◌};
ghost use Rattle.refusals.specs.Refusals.{code};
ghost use Rattle.questions.specs.Asked.{ask_refusal};
ghost use Rattle.structure.specs.Movie.{moov_of, tracks_of};
ghost use Rattle.movie.specs.Traks.{FewTraks};
ghost use Rattle.questions.specs.Asking.{StandsAt, Asks};

use bigendian::u32_at;
use places::moov::{Traks, trak_at};
use places::part_of;
use places::trak::Trak;
use refusals::Refusal;
use structure::source::Source;
use track::id_in;

// What a question of one track begins with: the movie's time scale, and the trak of the track that is asked.
#[derive(Clone, Copy)]
pub struct Asked {
    pub movie: u32,
    pub trak: Trak,
}

// The place of the first track with that ID among the traks; their number where no track has it.
fn place_of(lent: &[u8], traks: Traks, id: u32) -> usize
    requires { FewTraks lent.now (tracks_of (moov_of lent.now)) traks }
    ensures { StandsAt id (tracks_of (moov_of lent.now)) result }
{
    let count = traks.count;
    let mut i: usize = 0;
    while i < count {
        let trak = trak_at(traks, i);
        let body = trak.body;
        if id_in(part_of(lent, body), trak.parts) == id {
            return i;
        }
        i += 1;
    }
    i
}

impl Asked {
    // Of the track with that ID. The refusal is the one that is given before the question itself is looked at: the film's, or 14.
    pub fn of(lent: &[u8], source: Source, id: u32) -> Result<Asked, Refusal>
        ensures { Asks lent.now source id result }
    {
        let movie = movie::judge(lent, source)?;
        let heads = movie.heads;
        let traks = movie.traks;
        let i = place_of(lent, traks, id);
        if i == traks.count {
            return Err(Refusal::NoTrack);
        }
        Ok(Asked {
            movie: u32_at(part_of(lent, heads.mvhd), 20),
            trak: trak_at(traks, i),
        })
    }
}

// The refusal alone.
pub fn ask_refusal(lent: &[u8], source: Source, id: u32) -> Result<(), Refusal>
    ensures { code result ≡ ask_refusal lent.now source id }
{
    Asked::of(lent, source, id)?;
    Ok(())
}
