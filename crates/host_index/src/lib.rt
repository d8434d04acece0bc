// The index of a track, for a caller in another language: filled once in lent room, and the questions by it.
#![tactic(auto)]

ghost use Rattle.host_index.specs.Hands.{HandsIndex, HandsIndexedSample, HandsIndexedNumber};

use edits::MediaTime;
use hand::hand;
use host_opened::handle_in;
use host_samples::hand_sample_answer;
use host_times::hand_number_answer;
use refusals::code;
use sample_index::{NUMBERS, checkpoints_of, index_into, number_by_index, sample_by_index};

// Fills the index by a handle: in one place how many numbers it has.
pub fn hand_index(lent: &[u8], handle: &[u64], index: &mut [u64], places: &mut [u64]) -> u32
    ensures { HandsIndex lent.now handle.now index.old places.old result places.new index.new }
{
    if handle.len() < host_opened::NUMBERS {
        return 16;
    }
    if places.len() < 1 {
        return 16;
    }
    let h = handle_in(handle);
    let filled = index_into(lent, h, index);
    let refused = code(&filled);
    if refused != 0 {
        return hand(refused, &[0u64], places);
    }
    hand(0, &[(NUMBERS * checkpoints_of(h.samples)) as u64], places)
}

// Sample n by a handle and its index, in eight places.
pub fn hand_indexed_sample(
    lent: &[u8],
    handle: &[u64],
    index: &[u64],
    n: u32,
    places: &mut [i64],
) -> u32
    ensures { HandsIndexedSample lent.now handle.now index.now n places.old result places.new }
{
    if handle.len() < host_opened::NUMBERS {
        return 16;
    }
    let h = handle_in(handle);
    hand_sample_answer(sample_by_index(lent, h, index, n), places)
}

// The number of the sample at media time t, and the position of its entry in stts, by a handle and its index, in two places.
pub fn hand_indexed_sample_at(
    lent: &[u8],
    handle: &[u64],
    index: &[u64],
    t: u32,
    places: &mut [u64],
) -> u32
    ensures { HandsIndexedNumber lent.now handle.now index.now t places.old result places.new }
{
    if handle.len() < host_opened::NUMBERS {
        return 16;
    }
    let h = handle_in(handle);
    hand_number_answer(number_by_index(lent, h, index, MediaTime(t)), places)
}
