// The start of stepping through a track for a caller in another language: a position as numbers in lent places.
#![tactic(auto)]

ghost use Rattle.host_step_starts.specs.Hands.{StartHanded, HandsStart};

use hand::hand;
use position_numbers::hand_position;
use refusals::Refusal;
use stepping::Stepper;
use structure::source::Source;

// Puts the numbers of a position, or zeros with a refusal, into the first 29 places.
pub fn hand_start(start: Result<Stepper, Refusal>, stepper: &mut [u64]) -> u32
    ensures { StartHanded start stepper.old result stepper.new }
{
    match start {
        Ok(p) => hand_position(p, stepper),
        Err(e) => hand(u32::from(e), &[0u64; 29], stepper),
    }
}

// A position before sample n of a track, in 29 places.
pub fn hand_step_start(lent: &[u8], source: Source, id: u32, n: u32, stepper: &mut [u64]) -> u32
    ensures { HandsStart lent.now source id n stepper.old result stepper.new }
{
    hand_start(Stepper::at(lent, source, id, n), stepper)
}
