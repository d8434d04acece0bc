// A feature of a track, by its code, and where its peak is, for a caller in another language: the values in lent places.
#![tactic(auto)]

ghost use Rattle.hand.specs.Places.{Answers};
ghost use Rattle.host_features.specs.Numbers.{of_feature, of_peak};

use feature_questions::{feature_by_code, peak_by_code};
use hand::hand;
use structure::source::Source;

// The feature with that code of a track, in one place.
pub fn hand_feature(lent: &[u8], source: Source, id: u32, code: u32, places: &mut [u64]) -> u32
    ensures { Answers (of_feature lent.now source id code) places.old result places.new }
{
    match feature_by_code(lent, source, id, code) {
        Ok(v) => hand(0, &[v as u64], places),
        Err(e) => hand(u32::from(e), &[0], places),
    }
}

// Where the highest rate over a second is, by the feature's code, in two places: the number of the run's first sample, and how many samples it has.
pub fn hand_peak(lent: &[u8], source: Source, id: u32, code: u32, places: &mut [u64]) -> u32
    ensures { Answers (of_peak lent.now source id code) places.old result places.new }
{
    match peak_by_code(lent, source, id, code) {
        Ok(run) => hand(0, &[run.first as u64, run.count as u64], places),
        Err(e) => hand(u32::from(e), &[0, 0], places),
    }
}
