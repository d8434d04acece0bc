// Lookups in stts and ctts by their checkpoints: from the last one before the answer on.
#![tactic(auto)]

ghost use Rattle.std.specs.Prelude.{◌+◌, ◌^◌, ◌<◌};
ghost use Rattle.run_lookups.specs.From.{TimingFrom, OffsetFrom, NumberFrom};

use bigendian::after;
use checkpoints::{BYTES, RUNS, last_upto};
use edits::MediaTime;
use refusals::Refusal;
use runs::{Timing, composition_offset, look_up, timing_of};
use table_numbers::number_at;
use time_questions::Numbered;

// The times of the sample with an index.
pub fn timing_from(stts: &[u8], points: &[u64], count: usize, index: u32) -> Timing
    requires { (0 < count) × (count < 2 ^ 32) }
    ensures { TimingFrom stts.now points.now count index result }
{
    let i = last_upto(points, count, 0, index as u64);
    let passed = number_at(points, 2 * i);
    if (index as u64) < passed {
        return timing_of(stts, index);
    }
    let found = timing_of(after(stts, BYTES * i), (index as u64 - passed) as u32);
    Timing {
        start: std::num::wrapping_add_u64(number_at(points, 2 * i + 1), found.start),
        duration: found.duration,
    }
}

// The composition offset of the sample with an index.
pub fn offset_from(ctts: &[u8], points: &[u64], count: usize, index: u32) -> i64
    requires { (0 < count) × (count < 2 ^ 32) }
    ensures { OffsetFrom ctts.now points.now count index result }
{
    let i = last_upto(points, count, 0, index as u64);
    let passed = number_at(points, 2 * i);
    if (index as u64) < passed {
        return composition_offset(ctts, index);
    }
    composition_offset(after(ctts, BYTES * i), (index as u64 - passed) as u32)
}

// The sample whose media times hold t, of so many samples.
pub fn number_from(
    stts: &[u8],
    points: &[u64],
    count: usize,
    samples: u32,
    t: MediaTime,
) -> Result<Numbered, Refusal>
    requires { (0 < count) × (count < 2 ^ 26 + 1) }
    ensures { NumberFrom stts.now points.now count samples t result }
{
    if 4294967295 < stts.len() {
        return Err(Refusal::Outside);
    }
    let time = t.0 as u64;
    let i = last_upto(points, count, 1, time);
    let passed = number_at(points, 2 * i);
    let start = number_at(points, 2 * i + 1);
    if samples as u64 <= passed {
        return Err(Refusal::Outside);
    }
    if time < start {
        return Err(Refusal::Outside);
    }
    match look_up(after(stts, BYTES * i), (time - start) as u32) {
        Some(hit) => {
            if samples as u64 - passed <= hit.index {
                return Err(Refusal::Outside);
            }
            Ok(Numbered {
                sample: (passed + hit.index + 1) as u32,
                entry: (RUNS * i) as u32 + hit.entry,
            })
        }
        None => Err(Refusal::Outside),
    }
}
