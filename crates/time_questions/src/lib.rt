// The sample at a media time, and movie time to media time.
#![tactic(auto)]

ghost use Rattle.std.specs.Prelude.{◌≡◌};
ghost use Rattle.edits.specs.Edits.{media_at};
ghost use Rattle.time_questions.specs.Said.{number_said};
ghost use Rattle.time_questions.specs.Times.{SampleAt, to_answer, Maps};

use bigendian::u32_at;
use edits::{Mapped, MediaTime, MovieTime, media_at};
use places::part_of;
use questions::Asked;
use refusals::Refusal;
use runs::look_up;
use structure::source::Source;
use track::{media_total, scale_in};

// A sample's number and the position of its entry in stts, both from 1.
#[derive(Clone, Copy)]
pub struct Numbered {
    pub sample: u32,
    pub entry: u32,
}

// The sample whose media times hold t, by the bytes of stts and the number of samples, whatever these are.
pub fn sample_number_in(stts: &[u8], samples: u32, t: MediaTime) -> Result<Numbered, Refusal>
    ensures { result ≡ number_said stts.now samples t }
{
    if 4294967295 < stts.len() {
        return Err(Refusal::Outside);
    }
    let time = t.0;
    match look_up(stts, time) {
        Some(hit) => {
            if samples as u64 <= hit.index {
                return Err(Refusal::Outside);
            }
            Ok(Numbered {
                sample: (hit.index + 1) as u32,
                entry: hit.entry,
            })
        }
        None => Err(Refusal::Outside),
    }
}

// The sample whose media times hold t.
pub fn sample_at_time(
    lent: &[u8],
    source: Source,
    id: u32,
    t: MediaTime,
) -> Result<Numbered, Refusal>
    ensures { SampleAt lent.now source id t result }
{
    let asked = Asked::of(lent, source, id)?;
    let trak = asked.trak;
    let body = part_of(lent, trak.body);
    let p = trak.parts;
    let samples = u32_at(part_of(body, p.stsz), 16);
    sample_number_in(part_of(body, p.stts), samples, t)
}

// A time that lies outside is refused; where nothing is shown there is no media time.
fn to_answer(m: Mapped) -> Result<Option<MediaTime>, Refusal>
    ensures { result ≡ to_answer m }
{
    match m {
        Mapped::Media(t) => Ok(Some(t)),
        Mapped::Nothing => Ok(None),
        Mapped::Outside => Err(Refusal::Outside),
    }
}

// The media time that a movie time shows, if any, by the bytes of the edit list, the media's and the movie's scale and the total, whatever these are.
pub fn media_time_in(
    elst: &[u8],
    scale: u32,
    movie: u32,
    total: u32,
    t: MovieTime,
) -> Result<Option<MediaTime>, Refusal>
    ensures { result ≡ to_answer (media_at scale movie total elst.now t) }
{
    to_answer(media_at(elst, scale, movie, total, t))
}

// The media time that a movie time shows, if any.
pub fn media_time_of(
    lent: &[u8],
    source: Source,
    id: u32,
    t: MovieTime,
) -> Result<Option<MediaTime>, Refusal>
    ensures { Maps lent.now source id t result }
{
    let asked = Asked::of(lent, source, id)?;
    let trak = asked.trak;
    let body = part_of(lent, trak.body);
    let p = trak.parts;
    media_time_in(
        part_of(body, p.elst),
        scale_in(body, p),
        asked.movie,
        media_total(body, p),
        t,
    )
}
