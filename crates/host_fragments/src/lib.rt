// Whether a film has fragments, for a caller in another language: the values in lent places.
#![tactic(auto)]

ghost use Rattle.std.specs.Prelude.{◌≡◌};
ghost use Rattle.fragments.specs.Fragments.{bit};
ghost use Rattle.hand.specs.Places.{Answers};
ghost use Rattle.host_fragments.specs.Numbers.{of_fragments};

use fragments::fragments;
use hand::hand;
use structure::source::Source;

// 1 for a yes, 0 for a no.
fn bit(b: bool) -> u64
    ensures { result ≡ bit b }
{
    if b { 1 } else { 0 }
}

// In two places, whether the moov has an mvex and whether the file has a moof at top level: 1 for a yes. Both are 0 with a refusal.
pub fn hand_fragments(lent: &[u8], source: Source, places: &mut [u64]) -> u32
    ensures { Answers (of_fragments lent.now source) places.old result places.new }
{
    match fragments(lent, source) {
        Ok(told) => hand(0, &[bit(told.extended), bit(told.fragmented)], places),
        Err(e) => hand(u32::from(e), &[0, 0], places),
    }
}
