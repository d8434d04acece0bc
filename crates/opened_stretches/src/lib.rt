// A stretch by the handle of a track: the film is not judged again, and no atoms are walked over.
#![tactic(auto)]

ghost use Rattle.refusals.specs.Refusals.{code};
ghost use Rattle.opened_stretches.specs.Stretches.{RefusalBy, StretchBy};

use edits::MediaTime;
use opened::Opened;
use places::part_of;
use refusals::Refusal;
use stretch::StretchTotals;
use stretch::tables::{asked_of, stretch_in};

// The refusal of a stretch by a handle before the room is looked at: that it lies outside.
pub fn refusal_by(lent: &[u8], h: Opened, a: MediaTime, b: MediaTime) -> Result<(), Refusal>
    ensures { RefusalBy lent.now h a b (code result) }
{
    let tables = h.tables;
    let stts = tables.stts;
    let stsc = tables.stsc;
    let stsz = tables.stsz;
    let offsets = tables.offsets;
    asked_of(
        part_of(lent, stts),
        part_of(lent, stsc),
        part_of(lent, stsz),
        part_of(lent, offsets),
        h.samples,
        h.chunks,
        a,
        b,
    )?;
    Ok(())
}

// The stretch from a to b by a handle: a pair (offset, length) for each chunk touched, in the first places of the room. A refusal leaves the room as it is.
pub fn stretch_by(
    lent: &[u8],
    h: Opened,
    a: MediaTime,
    b: MediaTime,
    room: &mut [u64],
) -> Result<StretchTotals, Refusal>
    ensures { StretchBy lent.now h a b room.old result room.new }
{
    let tables = h.tables;
    let stts = tables.stts;
    let stsc = tables.stsc;
    let stsz = tables.stsz;
    let offsets = tables.offsets;
    stretch_in(
        part_of(lent, stts),
        part_of(lent, stsc),
        part_of(lent, stsz),
        part_of(lent, offsets),
        h.samples,
        h.chunks,
        a,
        b,
        room,
    )
}
