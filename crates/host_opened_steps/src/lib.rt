// The start of stepping by the handle of a track, for a caller in another language.
#![tactic(auto)]

ghost use Rattle.host_opened_steps.specs.Hands.{HandsStartBy};

use host_opened::{NUMBERS, handle_in};
use host_step_starts::hand_start;
use opened_steps::start_by;

// A position before sample n by a handle, in 29 places.
pub fn hand_opened_step_start(lent: &[u8], handle: &[u64], n: u32, stepper: &mut [u64]) -> u32
    ensures { HandsStartBy lent.now handle.now n stepper.old result stepper.new }
{
    if handle.len() < NUMBERS {
        return 16;
    }
    let h = handle_in(handle);
    hand_start(start_by(lent, h, n), stepper)
}
