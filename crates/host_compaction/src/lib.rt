// A film's moov atom with its tables compact, for a caller in another language: its bytes in a lent room, its length in a lent place.
#![tactic(auto)]

ghost use Rattle.compaction.specs.Compaction.{compact_moov};
ghost use Rattle.hand.specs.Places.{Fills};
ghost use Rattle.host_compaction.specs.Numbers.{of_compaction};

use compaction::compact_moov;
use hand::{hand, or_short};
use refusals::code;
use structure::source::Source;

// Writes the moov atom with its tables compact into the room, and its length into one place.
pub fn write_compact_moov(input: &[u8], source: Source, room: &mut [u8], places: &mut [u64]) -> u32
    ensures { Fills (of_compaction input.now source room.old) places.old
        (compact_moov input.now) room.old result places.new room.new }
{
    if places.len() < 1 {
        let asked = movie::refusal(input, source);
        return or_short(code(&asked));
    }
    match compact_moov(input, source, room) {
        Ok(n) => hand(0, &[n as u64], places),
        Err(e) => hand(u32::from(e), &[0], places),
    }
}
