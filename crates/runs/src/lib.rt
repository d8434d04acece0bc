// Tables of runs, stts and ctts, read as they stand in the file: one pass each, never expanded. A sample is named by its index from 0.
#![tactic(auto)]

pub mod cursor;

ghost use Rattle.std.specs.Prelude.{◌≡◌, cond, ◌<◌, ◌^◌, length, replicate, Some, None};
ghost use Rattle.std.specs.Int.Signed.{mag};
ghost use Rattle.lists.specs.Lists.{sum};
ghost use Rattle.lists.specs.Totals.{total_of};
ghost use Rattle.runs.specs.Runs.{runs_of, per_sample, composition_offset, sample_at, looked_up, timing_of, lesser_of, least_of};
ghost use Rattle.runs.specs.Computed.{counting};

use bigendian::{after, i32_at, u32_at};

// The sum of one number for each sample, of stts the durations, where no entry counts 0 samples and all of them total `samples`: both in one pass, as every
// question asks them of stts.
pub fn count_and_total(table: &[u8], samples: u32) -> Option<u64>
    ensures { result ≡ cond (counting samples (runs_of table.now)) (Some (sum (per_sample table.now))) None }
{
    let mut rest = samples;
    let mut total: u64 = 0;
    for entry in after(table, 16).chunks_exact(8) {
        let count = u32_at(entry, 0);
        if count == 0 {
            return None;
        }
        if rest < count {
            return None;
        }
        rest -= count;
        total += count as u64 * u32_at(entry, 4) as u64;
    }
    if rest != 0 {
        return None;
    }
    Some(total)
}

// Whether no entry counts 0 samples and all of them total `samples`.
pub fn counts(table: &[u8], samples: u32) -> bool
    ensures { result ≡ counting samples (runs_of table.now) }
{
    count_and_total(table, samples).is_some()
}

// The sum of the durations, where it is at most 4,294,967,295.
pub fn total_duration(stts: &[u8]) -> Option<u32>
    ensures { result ≡ total_of (sum (per_sample stts.now)) }
{
    let mut total: u64 = 0;
    for entry in after(stts, 16).chunks_exact(8) {
        let count = u32_at(entry, 0) as u64;
        let each = u32_at(entry, 4) as u64;
        total += count * each;
        if 4294967295 < total {
            return None;
        }
    }
    Some(total as u32)
}

// What a lookup by time finds: the sample's index, the position of its entry from 1, its decode time and its duration.
#[derive(Clone, Copy)]
pub struct Hit {
    pub index: u64,
    pub entry: u32,
    pub start: u64,
    pub duration: u32,
}

// The sample whose media times hold t, with its entry and its times, if there is one.
pub fn look_up(stts: &[u8], t: u32) -> Option<Hit>
    requires { length stts.now < 2 ^ 32 }
    ensures { result ≡ looked_up (runs_of stts.now) t }
{
    let mut entries: u32 = 0;
    let mut passed: u64 = 0;
    let mut rest = t as u64;
    for entry in after(stts, 16).chunks_exact(8) {
        let count = u32_at(entry, 0) as u64;
        let duration = u32_at(entry, 4);
        let each = duration as u64;
        let span = count * each;
        if rest < span {
            return Some(Hit {
                index: passed + rest / each,
                entry: entries + 1,
                start: t as u64 - rest % each,
                duration,
            });
        }
        rest -= span;
        passed += count;
        entries += 1;
    }
    None
}

// The same, by its index alone.
pub fn sample_at(stts: &[u8], t: u32) -> Option<u64>
    requires { length stts.now < 2 ^ 32 }
    ensures { result ≡ sample_at (per_sample stts.now) t }
{
    let hit = look_up(stts, t)?;
    Some(hit.index)
}

// A sample's decode time and duration.
#[derive(Clone, Copy)]
pub struct Timing {
    pub start: u64,
    pub duration: u32,
}

// The times of the sample with an index; past the last sample the sum of all durations, and 0.
pub fn timing_of(stts: &[u8], index: u32) -> Timing
    ensures { result ≡ timing_of (per_sample stts.now) index }
{
    let mut skip = index as u64;
    let mut start: u64 = 0;
    for entry in after(stts, 16).chunks_exact(8) {
        let count = u32_at(entry, 0) as u64;
        let each = u32_at(entry, 4);
        if skip < count {
            return Timing {
                start: start + skip * (each as u64),
                duration: each,
            };
        }
        start += count * (each as u64);
        skip -= count;
    }
    Timing { start, duration: 0 }
}

// The composition offset of the sample with an index: 0 past the last, and without ctts. The bound follows from the
// equation; callers add the offset to a decode time and need it.
pub fn composition_offset(ctts: &[u8], index: u32) -> i64
    ensures { (result ≡ composition_offset ctts.now index) × (mag result < 2 ^ 31) }
{
    let mut ahead = index;
    for entry in after(ctts, 16).chunks_exact(8) {
        let count = u32_at(entry, 0);
        if ahead < count {
            return i32_at(entry, 4);
        }
        ahead -= count;
    }
    0
}

// The least of two numbers that is not 0; 0 where both are.
fn lesser(a: u32, b: u32) -> u32
    ensures { result ≡ lesser_of a b }
{
    if a == 0 {
        return b;
    }
    if b == 0 {
        return a;
    }
    if a < b { a } else { b }
}

// The least duration of a run that is not 0; a run of no samples has none.
fn least_of_run(count: u32, each: u32) -> u32
    ensures { result ≡ least_of (replicate count each) }
{
    if count == 0 { 0 } else { each }
}

// The least duration that is not 0; 0 where there is none.
pub fn least_duration(stts: &[u8]) -> u32
    ensures { result ≡ least_of (per_sample stts.now) }
{
    let mut least: u32 = 0;
    for entry in after(stts, 16).chunks_exact(8) {
        least = lesser(least, least_of_run(u32_at(entry, 0), u32_at(entry, 4)));
    }
    least
}
