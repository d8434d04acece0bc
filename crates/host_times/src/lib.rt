// The sample at a media time, and movie time to media time, for a caller in another language: the values in lent places.
#![tactic(auto)]

ghost use Rattle.hand.specs.Places.{Answers};
ghost use Rattle.time_questions.specs.Times.{number_numbers, time_numbers};
ghost use Rattle.host_times.specs.Numbers.{of_sample_at, of_media_time};

use edits::{MediaTime, MovieTime};
use hand::hand;
use refusals::Refusal;
use structure::source::Source;
use time_questions::{Numbered, media_time_of, sample_at_time};

// The values of an answer in two places: the sample's number and the position of its entry in stts.
pub fn hand_number_answer(answer: Result<Numbered, Refusal>, places: &mut [u64]) -> u32
    ensures { Answers (number_numbers answer) places.old result places.new }
{
    match answer {
        Ok(found) => hand(0, &[found.sample as u64, found.entry as u64], places),
        Err(e) => hand(u32::from(e), &[0, 0], places),
    }
}

// The number of the sample at media time t and the position of its entry in stts, in two places.
pub fn hand_sample_at(lent: &[u8], source: Source, id: u32, t: u32, places: &mut [u64]) -> u32
    ensures { Answers (of_sample_at lent.now source id t) places.old result places.new }
{
    hand_number_answer(sample_at_time(lent, source, id, MediaTime(t)), places)
}

// The values of an answer in two places: 1 and the media time, or 0 and 0 where nothing is shown.
pub fn hand_time_answer(answer: Result<Option<MediaTime>, Refusal>, places: &mut [u64]) -> u32
    ensures { Answers (time_numbers answer) places.old result places.new }
{
    match answer {
        Ok(Some(m)) => hand(0, &[1, m.0 as u64], places),
        Ok(None) => hand(0, &[0, 0], places),
        Err(refusal) => hand(u32::from(refusal), &[0, 0], places),
    }
}

// What movie time t shows, in two places.
pub fn hand_media_time(lent: &[u8], source: Source, id: u32, t: u32, places: &mut [u64]) -> u32
    ensures { Answers (of_media_time lent.now source id t) places.old result places.new }
{
    hand_time_answer(media_time_of(lent, source, id, MovieTime(t)), places)
}
