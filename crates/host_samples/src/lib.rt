// A sample by its number, and where its bytes are, for a caller in another language: the values in lent places.
#![tactic(auto)]

ghost use Rattle.hand.specs.Places.{Answers, SignedAnswers};
ghost use Rattle.questions.specs.Samples.{sample_numbers};
ghost use Rattle.host_samples.specs.Numbers.{Signable, of_sample, of_sample_bytes};

use hand::hand;
use questions::samples::{Sample, sample_by_number};
use refusals::Refusal;
use structure::source::Source;

// The values of an answer in eight places: decode time, duration, composition time, sync (1 or 0), description ID, chunk, offset, size.
pub fn hand_sample_answer(answer: Result<Sample, Refusal>, places: &mut [i64]) -> u32
    requires { Signable answer }
    ensures { SignedAnswers (sample_numbers answer) places.old result places.new }
{
    match answer {
        Ok(s) => {
            let sync = s.sync as i64;
            hand(
                0,
                &[
                    s.decode as i64,
                    s.duration as i64,
                    s.composition,
                    sync,
                    s.description as i64,
                    s.chunk as i64,
                    s.offset as i64,
                    s.size as i64,
                ],
                places,
            )
        }
        Err(e) => hand(u32::from(e), &[0i64; 8], places),
    }
}

// Sample n of a track, in eight places.
pub fn hand_sample(lent: &[u8], source: Source, id: u32, n: u32, places: &mut [i64]) -> u32
    ensures { SignedAnswers (of_sample lent.now source id n) places.old result places.new }
{
    hand_sample_answer(sample_by_number(lent, source, id, n), places)
}

// The bytes of sample n in a whole file, in two places: where they begin, and how many they are.
pub fn hand_sample_bytes(file: &[u8], id: u32, n: u32, places: &mut [u64]) -> u32
    ensures { Answers (of_sample_bytes file.now id n) places.old result places.new }
{
    match sample_by_number(file, Source::whole(), id, n) {
        Ok(s) => hand(0, &[s.offset, s.size as u64], places),
        Err(e) => hand(u32::from(e), &[0, 0], places),
    }
}
