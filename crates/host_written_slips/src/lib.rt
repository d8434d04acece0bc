// The slip of a stretch of media time, for a caller in another language: its bytes in lent room, its length in a lent place.
#![tactic(auto)]

ghost use Rattle.slip_writing.specs.Slips.{slip_of_stretch};
ghost use Rattle.hand.specs.Places.{Fills};
ghost use Rattle.hand.specs.Times.{media};
ghost use Rattle.host_written_slips.specs.Numbers.{of_slip_writing};

use edits::MediaTime;
use hand::{hand, or_short};
use refusals::code;
use slip_writing::write_slip_of;
use stretch::span_refusal;
use structure::source::Source;

// Writes the slip of a track's stretch from a to b into the bytes, and in one place its length.
pub fn hand_written_slip(
    lent: &[u8],
    source: Source,
    id: u32,
    a: u32,
    b: u32,
    out: &mut [u8],
    places: &mut [u64],
) -> u32
    ensures { Fills (of_slip_writing lent.now source id a b out.old) places.old (slip_of_stretch lent.now id (media a) (media b)) out.old result places.new out.new }
{
    if places.len() < 1 {
        let strict = source.strictly();
        let asked = span_refusal(lent, strict, id, MediaTime(a), MediaTime(b));
        return or_short(code(&asked));
    }
    match write_slip_of(lent, source, id, MediaTime(a), MediaTime(b), out) {
        Ok(n) => hand(0, &[n as u64], places),
        Err(e) => hand(u32::from(e), &[0], places),
    }
}
