// Stepping through a track: a position in each of its tables, held by value, made at a sample number, and moved past one sample after the other.
#![tactic(auto)]

pub mod parts;

ghost use Rattle.stepping.specs.Stepping.{Starts, Steps};

use bigendian::u32_at;
use parts::start_in;
use places::part_of;
use places::tables::{Tables, tables_in};
use positions::moving::Moving;
use questions::Asked;
use questions::samples::Sample;
use refusals::Refusal;
use step_moves::{heads_of, step_in};
use structure::source::Source;

// The tables of the track, the number of its samples, and the places before the next of them. The sizes of headers and entries by which a step goes are
// associated constants of the position (`Moving`) and of its cursors (`RunCursor`, `ChunkCursor`).
#[derive(Clone, Copy)]
pub struct Stepper {
    pub tables: Tables,
    pub samples: u32,
    pub moving: Moving,
}

// The answer of `step`: the next sample, and the position past it; or done, where no sample follows.
#[derive(Clone, Copy)]
pub enum Step {
    Next(Sample, Stepper),
    Done,
}

impl Stepper {
    // Before sample n of a track, numbered from 1.
    pub fn at(lent: &[u8], source: Source, id: u32, n: u32) -> Result<Stepper, Refusal>
        ensures { Starts lent.now source id n result }
    {
        let asked = Asked::of(lent, source, id)?;
        let trak = asked.trak;
        let tables = tables_in(lent, trak.body, trak.parts);
        let stsz = tables.stsz;
        start_in(lent, tables, u32_at(part_of(lent, stsz), 16), n)
    }

    // The next sample and the position past it; done past the last one.
    pub fn step(self, lent: &[u8]) -> Step
        ensures { Steps lent.now self result }
    {
        let tables = self.tables;
        let samples = self.samples;
        let m = self.moving;
        let stts = tables.stts;
        let ctts = tables.ctts;
        let stsc = tables.stsc;
        let stsz = tables.stsz;
        let offsets = tables.offsets;
        let stss = tables.stss;
        let z = part_of(lent, stsz);
        let o = part_of(lent, offsets);
        let heads = heads_of(z, o);
        let r = step_in(
            part_of(lent, stts),
            part_of(lent, ctts),
            part_of(lent, stsc),
            z,
            o,
            part_of(lent, stss),
            heads,
            samples,
            m,
        );
        match r {
            Some(next) => Step::Next(
                next.sample,
                Stepper {
                    tables,
                    samples,
                    moving: next.past,
                },
            ),
            None => Step::Done,
        }
    }
}
