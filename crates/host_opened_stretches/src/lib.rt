// The byte ranges of a stretch of media time by the handle of a track, for a caller in another language.
#![tactic(auto)]

ghost use Rattle.host_opened_stretches.specs.Hands.{HandsStretch};

use edits::MediaTime;
use hand::{hand, or_short};
use host_opened::{NUMBERS, handle_in};
use opened_stretches::{refusal_by, stretch_by};
use refusals::code;

// The stretch from a to b by a handle: a pair (offset, length) for each chunk touched in the room, and in two places how many pairs and the total of bytes.
pub fn hand_opened_stretch(
    lent: &[u8],
    handle: &[u64],
    a: u32,
    b: u32,
    room: &mut [u64],
    places: &mut [u64],
) -> u32
    ensures { HandsStretch lent.now handle.now a b room.old places.old result room.new places.new }
{
    if handle.len() < NUMBERS {
        return 16;
    }
    let h = handle_in(handle);
    if places.len() < 2 {
        let asked = refusal_by(lent, h, MediaTime(a), MediaTime(b));
        return or_short(code(&asked));
    }
    match stretch_by(lent, h, MediaTime(a), MediaTime(b), room) {
        Ok(totals) => hand(0, &[totals.pairs as u64, totals.bytes], places),
        Err(e) => hand(u32::from(e), &[0, 0], places),
    }
}
