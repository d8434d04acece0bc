// A position by the places of a track's tables and the number of its samples, whatever these are.
ghost use Rattle.std.specs.Prelude.{◌≡◌};
ghost use Rattle.stepping.specs.Parts.{start_said};

use super::Stepper;
use places::part_of;
use places::tables::Tables;
use position_seeks::moving_seek;
use refusals::Refusal;

// Before sample n, numbered from 1. `Stepper::at` goes by it, and the start by a handle.
pub fn start_in(lent: &[u8], tables: Tables, samples: u32, n: u32) -> Result<Stepper, Refusal>
    ensures { result ≡ start_said lent.now tables samples n }
{
    if n == 0 {
        return Err(Refusal::Outside);
    }
    if samples < n {
        return Err(Refusal::Outside);
    }
    let part = tables.stsc;
    let stsc = part_of(lent, part);
    if 4294967295 < stsc.len() {
        return Err(Refusal::Outside);
    }
    let stts = tables.stts;
    let ctts = tables.ctts;
    let stsz = tables.stsz;
    let offsets = tables.offsets;
    let stss = tables.stss;
    let moving = moving_seek(
        part_of(lent, stts),
        part_of(lent, ctts),
        stsc,
        part_of(lent, stsz),
        part_of(lent, offsets),
        part_of(lent, stss),
        n - 1,
    );
    Ok(Stepper {
        tables,
        samples,
        moving,
    })
}
