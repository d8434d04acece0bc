// The next samples of a track, put into lent room one after the other.
#![tactic(auto)]

ghost use Rattle.std.specs.Prelude.{◌≡◌, ◌+◌, ◌/◌, ◌≤◌, ◌<◌, ◌^◌, length};
ghost use Rattle.std.proofs.lemmas.List.Edits.{sets};
ghost use Rattle.questions.specs.Samples.{sample_values};
ghost use Rattle.steps_into.specs.Into.{StepsInto};

use places::part_of;
use places::tables::Tables;
use positions::moving::Moving;
use questions::samples::Sample;
use step_moves::{heads_of, step_in};
use stepping::Stepper;

// How many numbers a sample has.
pub const SAMPLE: usize = 8;

// Puts the sample's numbers into the room, from the place `at` on.
fn put_sample(x: Sample, room: &mut [i64], at: usize)
    requires { (x.decode < 2 ^ 32) × (x.chunk < 2 ^ 32) × (x.offset < 2 ^ 63) × (at + 8 ≤ length room.old) }
    ensures { room.new ≡ sets room.old at (sample_values x) }
{
    let decode = x.decode as i64;
    let duration = x.duration as i64;
    let composition = x.composition;
    let sync = x.sync as i64;
    let description = x.description as i64;
    let chunk = x.chunk as i64;
    let offset = x.offset as i64;
    let size = x.size as i64;
    room[at] = decode;
    room[at + 1] = duration;
    room[at + 2] = composition;
    room[at + 3] = sync;
    room[at + 4] = description;
    room[at + 5] = chunk;
    room[at + 6] = offset;
    room[at + 7] = size;
}

// How many samples are put, and the position past them.
#[derive(Clone, Copy)]
pub struct Reached {
    pub count: usize,
    pub position: Stepper,
}

fn reached_at(at: usize, tables: Tables, samples: u32, moving: Moving) -> Reached
    ensures { result ≡ record { count = at / 8; position = record { tables = tables; samples = samples; moving = moving } } }
{
    Reached {
        count: at / SAMPLE,
        position: Stepper {
            tables,
            samples,
            moving,
        },
    }
}

// Puts the next samples into the first places of the room: as many as it holds, or fewer where a step is done. Of a position of its own film those
// are all that are left. The loop holds the places alone, and each table is made a slice once.
pub fn steps_into(lent: &[u8], from: Stepper, room: &mut [i64]) -> Reached
    ensures { StepsInto lent.now from room.old result room.new }
{
    let tables = from.tables;
    let samples = from.samples;
    let part = tables.stts;
    let stts = part_of(lent, part);
    let part = tables.ctts;
    let ctts = part_of(lent, part);
    let part = tables.stsc;
    let stsc = part_of(lent, part);
    let part = tables.stsz;
    let stsz = part_of(lent, part);
    let part = tables.offsets;
    let offsets = part_of(lent, part);
    let part = tables.stss;
    let stss = part_of(lent, part);
    let heads = heads_of(stsz, offsets);
    let mut m = from.moving;
    let mut at = 0;
    while SAMPLE <= room.len() - at {
        let step = step_in(stts, ctts, stsc, stsz, offsets, stss, heads, samples, m);
        let Some(next) = step else {
            return reached_at(at, tables, samples, m);
        };
        put_sample(next.sample, room, at);
        at += SAMPLE;
        m = next.past;
    }
    reached_at(at, tables, samples, m)
}
