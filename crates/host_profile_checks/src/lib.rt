// Whether a track's own profile is true, for a caller in another language: the answer in a lent place.
#![tactic(auto)]

ghost use Rattle.hand.specs.Places.{Answers};
ghost use Rattle.host_profile_checks.specs.Numbers.{of_profile_check};

use hand::hand;
use profile_checks::{ProfileCheck, check_profile};
use structure::source::Source;

// In one place 0 where the profile is true, else the place of the first record at fault, from 1.
pub fn hand_check_profile(lent: &[u8], source: Source, id: u32, places: &mut [u64]) -> u32
    ensures { Answers (of_profile_check lent.now source id) places.old result places.new }
{
    match check_profile(lent, source, id) {
        Ok(ProfileCheck::Yes) => hand(0, &[0], places),
        Ok(ProfileCheck::Fault(place)) => hand(0, &[place as u64], places),
        Err(e) => hand(u32::from(e), &[0], places),
    }
}
