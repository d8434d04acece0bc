// A slip of either form that is read, for a caller in another language: its pairs in lent room of 64-bit numbers, the values in lent places.
#![tactic(auto)]

ghost use Rattle.std.specs.Prelude.{◌≡◌, true};
ghost use Rattle.slip.specs.Slip.{slip_in};
ghost use Rattle.hand.specs.Places.{Fills};
ghost use Rattle.host_slips.specs.Numbers.{of_slip_reading, pairs_of, outcome_refusal};

use hand::{hand, or_short};
use slip::{SlipError, read_any_slip};

// Whether bytes are a slip of either form: 0, or 17.
fn any_slip_refusal(bytes: &[u8]) -> u32
    ensures { result ≡ outcome_refusal (slip_in true bytes.now) }
{
    let mut none = [0u64; 0];
    match read_any_slip(bytes, &mut none) {
        Ok(_) => 0,
        Err(SlipError::Malformed(_)) => 17,
        Err(SlipError::NoRoom) => 0,
    }
}

// Reads a slip of either form: its pairs in the room, and in six places track ID, scale, a, b, how many pairs, and 0; or zeros and, with refusal 17, the place where the slip goes wrong.
pub fn hand_read_any_slip(bytes: &[u8], room: &mut [u64], places: &mut [u64]) -> u32
    ensures { Fills (of_slip_reading true bytes.now room.old) places.old (pairs_of (slip_in true bytes.now)) room.old result places.new room.new }
{
    if places.len() < 6 {
        return or_short(any_slip_refusal(bytes));
    }
    match read_any_slip(bytes, room) {
        Ok(h) => hand(0, &[h.id, h.scale, h.a, h.b, h.pairs, 0], places),
        Err(SlipError::Malformed(place)) => hand(17, &[0, 0, 0, 0, 0, place as u64], places),
        Err(SlipError::NoRoom) => hand(16, &[0u64; 6], places),
    }
}
