// Places in stts and ctts: the cursor of the crate runs.
ghost use Rattle.std.specs.Prelude.{◌≡◌, ◌<◌, ◌^◌};
ghost use Rattle.std.specs.Int.Signed.{mag};
ghost use Rattle.bigendian.specs.BigEndian.{signed32};
ghost use Rattle.positions.specs.Runs.{sought_run, shift_of};

use super::moving::Moving;
use bigendian::{after, u32_at};
use runs::cursor::{RunCursor, run_pass, run_start};

// Before the sample with an index; past the last one where there are no more.
pub fn run_seek(table: &[u8], index: u32) -> RunCursor
    ensures { result ≡ sought_run table.now index }
{
    let mut r = run_start();
    let mut skip = index;
    while r.count <= skip {
        let at = r.at;
        let t = after(table, at);
        if t.len() < Moving::RUN {
            return run_pass(r, skip);
        }
        skip -= r.count;
        r = RunCursor {
            at: at + Moving::RUN,
            count: u32_at(t, 0),
            each: u32_at(t, 4),
        };
    }
    run_pass(r, skip)
}

// The number that 32 bits stand for in two's complement.
fn signed(n: u32) -> i64
    ensures { (result ≡ signed32 n) × (mag result < 2 ^ 31) }
{
    i64::from(n.cast_signed())
}

// The composition offset of the sample at which a cursor of ctts stands; 0 where none lies ahead.
pub fn shift_of(c: RunCursor) -> i64
    ensures { (result ≡ shift_of c) × (mag result < 2 ^ 31) }
{
    if c.count == 0 {
        return 0;
    }
    signed(c.each)
}
