// Checkpoints of a table of runs: before each 64th run the counts and the values so far, in lent room. A lookup starts at the last one before its answer.
#![tactic(auto)]

ghost use Rattle.std.specs.Prelude.{◌≡◌, ◌+◌, ◌*◌, ◌^◌, ◌<◌, ◌≤◌, length, take, slice_index};
ghost use Rattle.std.proofs.lemmas.List.Edits.{sets};
ghost use Rattle.runs.specs.Runs.{runs_in, runs_of};
ghost use Rattle.checkpoints.specs.Points.{with_run, with_runs, point_numbers, point_upto};

use bigendian::{after, u32_at};
use table_numbers::number_at;

// How many runs lie between two checkpoints, and how many bytes these are in stts or ctts.
pub const RUNS: usize = 64;

pub const BYTES: usize = 512;

// The counts of some runs, added, and their values, each as often as its count says; modulo 2^64.
#[derive(Clone, Copy)]
pub struct Sums {
    pub count: u64,
    pub total: u64,
}

// With one run more.
pub fn sums_with(sums: Sums, count: u64, value: u32) -> Sums
    requires { count ≤ 2 ^ 32 }
    ensures { result ≡ with_run (record { count = count; value = value }) sums }
{
    Sums {
        count: std::num::wrapping_add_u64(sums.count, count),
        total: std::num::wrapping_add_u64(sums.total, count * value as u64),
    }
}

// With the next 64 runs of a part of stts or ctts, or as many as there are.
fn sums_past(part: &[u8], sums: Sums) -> Sums
    ensures { result ≡ with_runs (take 64 (runs_in part.now)) sums }
{
    let mut s = part;
    let mut r = sums;
    let mut i = 0;
    while i < RUNS {
        if s.len() < 8 {
            return r;
        }
        r = sums_with(r, u32_at(s, 0) as u64, u32_at(s, 4));
        s = &s[8..];
        i += 1;
    }
    r
}

// Puts the checkpoints of stts or ctts into the first places of the room, two numbers each.
pub fn put_checkpoints(table: &[u8], count: usize, room: &mut [u64])
    requires { (count < 2 ^ 32) × (2 * count ≤ length room.old) }
    ensures { room.new ≡ sets room.old 0 (point_numbers (runs_of table.now) count) }
{
    let mut r = Sums { count: 0, total: 0 };
    for i in 0..count {
        room[2 * i] = r.count;
        room[2 * i + 1] = r.total;
        r = sums_past(after(table, 16 + BYTES * i), r);
    }
}

// The last checkpoint of which a number is not above x, by halving; the first where there is none. `field` is 0 for the counts, 1 for the totals. The
// bounds follow from the equation; callers need them.
pub fn last_upto(points: &[u64], count: usize, field: usize, x: u64) -> usize
    requires { (count < 2 ^ 32) × (field < 2) }
    ensures { (result ≤ count) × (0 < result → result < count) × (0 < result → slice_index points.now (2 * result + field) ≤ x) × (result + 1 < count → x < slice_index points.now (2 * (result + 1) + field)) × (result ≡ point_upto points.now count field x) }
{
    let mut low = 0;
    let mut high = count;
    while 1 < high - low {
        let middle = low + (high - low) / 2;
        if number_at(points, 2 * middle + field) <= x {
            low = middle;
        } else {
            high = middle;
        }
    }
    low
}
