// A slip that is read, for a caller in another language: its pairs in lent room, the values in lent places.
#![tactic(auto)]

ghost use Rattle.std.specs.Prelude.{◌≡◌, false};
ghost use Rattle.slip.specs.Slip.{slip_in};
ghost use Rattle.hand.specs.Places.{Fills};
ghost use Rattle.host_slips.specs.Numbers.{of_slip_reading, pairs_of, outcome_refusal};

use hand::{hand, or_short};
use slip::{SlipError, read_slip};

// Whether bytes are a slip: 0, or 17.
fn slip_refusal(bytes: &[u8]) -> u32
    ensures { result ≡ outcome_refusal (slip_in false bytes.now) }
{
    let mut none = [0u32; 0];
    match read_slip(bytes, &mut none) {
        Ok(_) => 0,
        Err(SlipError::Malformed(_)) => 17,
        Err(SlipError::NoRoom) => 0,
    }
}

// Reads a slip: its pairs in the room, and in six places track ID, scale, a, b, how many pairs, and 0; or zeros and, with refusal 17, the place where the slip goes wrong.
pub fn hand_read_slip(bytes: &[u8], room: &mut [u32], places: &mut [u64]) -> u32
    ensures { Fills (of_slip_reading false bytes.now room.old) places.old (pairs_of (slip_in false bytes.now)) room.old result places.new room.new }
{
    if places.len() < 6 {
        return or_short(slip_refusal(bytes));
    }
    match read_slip(bytes, room) {
        Ok(h) => hand(0, &[h.id, h.scale, h.a, h.b, h.pairs, 0], places),
        Err(SlipError::Malformed(place)) => hand(17, &[0, 0, 0, 0, 0, place as u64], places),
        Err(SlipError::NoRoom) => hand(16, &[0u64; 6], places),
    }
}
