// An index of a track in lent room, filled once: the checkpoints of stts, ctts and stsc, one for each 64 samples begun. A lookup by it starts at the
// checkpoint before its answer.
#![tactic(auto)]

ghost use Rattle.std.specs.Prelude.{◌≡◌, ◌+◌, ◌*◌, ◌≤◌, ◌<◌, ◌^◌, length};
ghost use Rattle.refusals.specs.Refusals.{code};
ghost use Rattle.sample_index.specs.Index.{checkpoints_of, IndexInto, SampleByIndex, NumberByIndex};
ghost use Rattle.sample_index.specs.Looked.{LookedUp};

use chunk_lookups::locate_from;
use edits::MediaTime;
use opened::Opened;
use places::part_of;
use questions::samples::{Sample, sample_found};
use rates::ceiling;
use refusals::Refusal;
use run_lookups::{number_from, offset_from, timing_from};
use sync_search::is_sync_rising;
use time_questions::Numbered;

// How many numbers the index has for each checkpoint: two for each of the three tables.
pub const NUMBERS: usize = 6;

// How many checkpoints it has of each table: one for each 64 samples begun. The bounds follow from the equation; callers need them.
pub fn checkpoints_of(samples: u32) -> usize
    ensures { (result ≡ checkpoints_of samples) × (result ≤ 2 ^ 26) × (samples ≤ result * 64) }
{
    ceiling(samples as u64, checkpoints::RUNS as u64) as usize
}

// Fills the first places of the room with the index; refused where it is too short.
pub fn index_into(lent: &[u8], h: Opened, room: &mut [u64]) -> Result<(), Refusal>
    ensures { IndexInto lent.now h room.old (code result) room.new }
{
    let count = checkpoints_of(h.samples);
    if room.len() < NUMBERS * count {
        return Err(Refusal::NoRoom);
    }
    let tables = h.tables;
    let stts = tables.stts;
    let ctts = tables.ctts;
    let stsc = tables.stsc;
    let second = 2 * count;
    let third = 4 * count;
    checkpoints::put_checkpoints(part_of(lent, stts), count, room);
    checkpoints::put_checkpoints(part_of(lent, ctts), count, &mut room[second..]);
    chunk_lookups::put_checkpoints(part_of(lent, stsc), h.chunks, count, &mut room[third..]);
    Ok(())
}

// What the tables say of the sample with an index, from 0, of a track that has some.
fn looked_up(lent: &[u8], h: Opened, index: &[u64], count: usize, k: u32) -> Result<Sample, Refusal>
    requires { (0 < count) × (count ≤ 2 ^ 26) × (6 * count ≤ length index.now) × (k + 1 < 2 ^ 32) }
    ensures { LookedUp lent.now h index.now count k result }
{
    let tables = h.tables;
    let stts = tables.stts;
    let ctts = tables.ctts;
    let stsc = tables.stsc;
    let stsz = tables.stsz;
    let offsets = tables.offsets;
    let stss = tables.stss;
    let deals = part_of(lent, stsc);
    if 4294967295 < deals.len() {
        return Err(Refusal::Outside);
    }
    let second = 2 * count;
    let third = 4 * count;
    sample_found(
        timing_from(part_of(lent, stts), index, count, k),
        offset_from(part_of(lent, ctts), &index[second..], count, k) as i32,
        locate_from(deals, &index[third..], count, h.chunks, k),
        is_sync_rising(part_of(lent, stss), k + 1),
        part_of(lent, stsz),
        part_of(lent, offsets),
        h.chunks,
        k,
    )
}

// Sample n of the track, numbered from 1.
pub fn sample_by_index(lent: &[u8], h: Opened, index: &[u64], n: u32) -> Result<Sample, Refusal>
    ensures { SampleByIndex lent.now h index.now n result }
{
    let count = checkpoints_of(h.samples);
    if index.len() < NUMBERS * count {
        return Err(Refusal::NoRoom);
    }
    if n == 0 {
        return Err(Refusal::Outside);
    }
    if h.samples < n {
        return Err(Refusal::Outside);
    }
    looked_up(lent, h, index, count, n - 1)
}

// The sample whose media times hold t.
pub fn number_by_index(
    lent: &[u8],
    h: Opened,
    index: &[u64],
    t: MediaTime,
) -> Result<Numbered, Refusal>
    ensures { NumberByIndex lent.now h index.now t result }
{
    let samples = h.samples;
    let count = checkpoints_of(samples);
    if index.len() < NUMBERS * count {
        return Err(Refusal::NoRoom);
    }
    if samples == 0 {
        return Err(Refusal::Outside);
    }
    let tables = h.tables;
    let stts = tables.stts;
    number_from(part_of(lent, stts), index, count, samples, t)
}
