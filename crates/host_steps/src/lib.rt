// Stepping through a track for a caller in another language: the position as numbers in lent places, and samples in lent places or room.
#![tactic(auto)]

ghost use Rattle.std.specs.Prelude.{◌≤◌, length};
ghost use Rattle.host_steps.specs.Hands.{Advanced, HandsStep, HandsSteps};

use hand::hand;
use position_numbers::{NUMBERS, hand_position, position_in};
use steps_into::{SAMPLE, steps_into};

// The next samples in the room, and the position past them in the first places of `stepper` where they are at least that many; answers how many.
// Both functions below go by it, so that a position is read, moved and written with no copy between. The test is theirs too: made here, no number
// is tested by itself.
fn advance(lent: &[u8], stepper: &mut [u64], room: &mut [i64], least: usize) -> usize
    requires { 29 ≤ length stepper.old }
    ensures { Advanced lent.now stepper.old room.old least result stepper.new room.new }
{
    if stepper.len() < NUMBERS {
        return 0;
    }
    let from = position_in(&stepper[..]);
    let reached = steps_into(lent, from, room);
    let n = reached.count;
    if n < least {
        return n;
    }
    let position = reached.position;
    hand_position(position, stepper);
    n
}

// The next sample in nine places, 1 and its eight values, and the position past it; or nine zeros where there is none.
pub fn hand_sample_step(lent: &[u8], stepper: &mut [u64], places: &mut [i64]) -> u32
    ensures { HandsStep lent.now stepper.old places.old result stepper.new places.new }
{
    if stepper.len() < NUMBERS {
        return 16;
    }
    if places.len() <= SAMPLE {
        return 16;
    }
    let n = advance(lent, stepper, &mut places[1..9], 1);
    if n == 0 {
        return hand(0, &[0i64; 9], places);
    }
    places[0] = 1;
    0
}

// The next samples in the room, eight values each, as `steps_into` has them; in one place how many, and the position past them.
pub fn hand_sample_steps(
    lent: &[u8],
    stepper: &mut [u64],
    room: &mut [i64],
    places: &mut [u64],
) -> u32
    ensures { HandsSteps lent.now stepper.old room.old places.old result stepper.new room.new places.new }
{
    if stepper.len() < NUMBERS {
        return 16;
    }
    if places.len() < 1 {
        return 16;
    }
    let n = advance(lent, stepper, room, 0);
    places[0] = n as u64;
    0
}
