// A feature of a track, by its code, and where its peak is.
#![tactic(auto)]

ghost use Rattle.std.specs.Prelude.{◌≡◌};
ghost use Rattle.feature_questions.specs.Feature.{to_value, Computes, to_run, Locates};

use features::{feature_of, peak_for};
use peaks::Peak;
use places::part_of;
use questions::Asked;
use refusals::Refusal;
use structure::source::Source;

fn to_value(f: Option<u32>) -> Result<u32, Refusal>
    ensures { result ≡ to_value f }
{
    match f {
        Some(v) => Ok(v),
        None => Err(Refusal::NotComputed),
    }
}

// The feature with that code of a track.
pub fn feature_by_code(lent: &[u8], source: Source, id: u32, code: u32) -> Result<u32, Refusal>
    ensures { Computes lent.now source id code result }
{
    let asked = Asked::of(lent, source, id)?;
    let trak = asked.trak;
    let body = part_of(lent, trak.body);
    to_value(feature_of(body, trak.parts, asked.movie, code))
}

// Samples that follow each other: the number of the first, from 1, and how many they are.
#[derive(Clone, Copy)]
pub struct Run {
    pub first: u32,
    pub count: u32,
}

fn to_run(p: Option<Peak>) -> Result<Run, Refusal>
    ensures { result ≡ to_run p }
{
    match p {
        Some(peak) => Ok(Run {
            first: peak.first,
            count: peak.count,
        }),
        None => Err(Refusal::NotComputed),
    }
}

// Where a track's highest rate over a second is, by the feature's code: the run of samples that has it.
pub fn peak_by_code(lent: &[u8], source: Source, id: u32, code: u32) -> Result<Run, Refusal>
    ensures { Locates lent.now source id code result }
{
    let asked = Asked::of(lent, source, id)?;
    let trak = asked.trak;
    to_run(peak_for(part_of(lent, trak.body), trak.parts, code))
}
