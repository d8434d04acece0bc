// A track opened once: where its tables stand and its numbers, held by value. A question by it does not judge the film again, and walks over no atoms.
#![tactic(auto)]

ghost use Rattle.opened.specs.Opened.{OpenAnswers, SampleBy, NumberBy, TimeBy};

use bigendian::u32_at;
use edits::{MediaTime, MovieTime};
use places::tables::{Tables, tables_in};
use places::{Part, part_of, part_within};
use questions::Asked;
use questions::samples::{Sample, sample_of};
use refusals::Refusal;
use structure::source::Source;
use time_questions::{Numbered, media_time_in, sample_number_in};
use track::{media_total, scale_in};

// The sample tables of the track and its edit list, the numbers of its samples and chunks, the media's and the movie's time scale, and the total of the
// sample durations.
#[derive(Clone, Copy)]
pub struct Opened {
    pub tables: Tables,
    pub elst: Part,
    pub samples: u32,
    pub chunks: u32,
    pub scale: u32,
    pub movie: u32,
    pub total: u32,
}

impl Opened {
    // A track by its ID. The film is judged here, and not again by the handle.
    pub fn of(lent: &[u8], source: Source, id: u32) -> Result<Opened, Refusal>
        ensures { OpenAnswers lent.now source id result }
    {
        let asked = Asked::of(lent, source, id)?;
        let trak = asked.trak;
        let place = trak.body;
        let parts = trak.parts;
        let tables = tables_in(lent, place, parts);
        let stsz = tables.stsz;
        let offsets = tables.offsets;
        let body = part_of(lent, place);
        Ok(Opened {
            tables,
            elst: part_within(lent, place, parts.elst),
            samples: u32_at(part_of(lent, stsz), 16),
            chunks: u32_at(part_of(lent, offsets), 12),
            scale: scale_in(body, parts),
            movie: asked.movie,
            total: media_total(body, parts),
        })
    }

    // Sample n of the track, numbered from 1.
    pub fn sample(self, lent: &[u8], n: u32) -> Result<Sample, Refusal>
        ensures { SampleBy lent.now self n result }
    {
        let tables = self.tables;
        let stts = tables.stts;
        let ctts = tables.ctts;
        let stsc = tables.stsc;
        let stsz = tables.stsz;
        let offsets = tables.offsets;
        let stss = tables.stss;
        sample_of(
            part_of(lent, stts),
            part_of(lent, ctts),
            part_of(lent, stsc),
            part_of(lent, stsz),
            part_of(lent, offsets),
            part_of(lent, stss),
            self.samples,
            self.chunks,
            n,
        )
    }

    // The sample whose media times hold t.
    pub fn sample_at(self, lent: &[u8], t: MediaTime) -> Result<Numbered, Refusal>
        ensures { NumberBy lent.now self t result }
    {
        let tables = self.tables;
        let stts = tables.stts;
        sample_number_in(part_of(lent, stts), self.samples, t)
    }

    // The media time that a movie time shows, if any.
    pub fn media_time(self, lent: &[u8], t: MovieTime) -> Result<Option<MediaTime>, Refusal>
        ensures { TimeBy lent.now self t result }
    {
        let elst = self.elst;
        media_time_in(part_of(lent, elst), self.scale, self.movie, self.total, t)
    }
}
