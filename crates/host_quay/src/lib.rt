// Whether a film keeps the quay film profile, for a caller in another language: the values in lent places.
#![tactic(auto)]

ghost use Rattle.hand.specs.Places.{Answers};
ghost use Rattle.host_quay.specs.Numbers.{of_quay};

use hand::hand;
use quay::check_quay;
use structure::source::Source;

// The lowest rule that the film breaks and the ID of the first track that breaks it, in two places; the ID is 0 for the first rule.
// Both are 0 where the film keeps the profile, and with a refusal.
pub fn hand_quay(lent: &[u8], source: Source, places: &mut [u64]) -> u32
    ensures { Answers (of_quay lent.now source) places.old result places.new }
{
    match check_quay(lent, source) {
        Ok(None) => hand(0, &[0, 0], places),
        Ok(Some(breach)) => hand(0, &[breach.rule as u64, breach.track as u64], places),
        Err(e) => hand(u32::from(e), &[0, 0], places),
    }
}
