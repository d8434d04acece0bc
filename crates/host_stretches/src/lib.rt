// The byte ranges of a stretch of media time, for a caller in another language: pairs in lent room, the values in lent places.
#![tactic(auto)]

ghost use Rattle.pairs.specs.Pairs.{flat};
ghost use Rattle.structure.specs.Source.{whole_file};
ghost use Rattle.stretch.specs.Stretches.{stretch_pairs};
ghost use Rattle.hand.specs.Places.{Fills};
ghost use Rattle.hand.specs.Times.{media};
ghost use Rattle.host_stretches.specs.Numbers.{of_stretch};

use edits::MediaTime;
use hand::{hand, or_short};
use refusals::code;
use stretch::{span_refusal, stretch_of};
use structure::source::Source;

// The stretch of a track from a to b: a pair (offset, length) for each chunk touched in the room, and in two places how many pairs and the total of bytes.
pub fn hand_stretch(
    file: &[u8],
    id: u32,
    a: u32,
    b: u32,
    room: &mut [u32],
    places: &mut [u64],
) -> u32
    ensures { Fills (of_stretch file.now whole_file id a b room.old) places.old (flat (stretch_pairs file.now id (media a) (media b))) room.old result places.new room.new }
{
    if places.len() < 2 {
        let source = Source::whole();
        let asked = span_refusal(file, source, id, MediaTime(a), MediaTime(b));
        return or_short(code(&asked));
    }
    match stretch_of(file, id, MediaTime(a), MediaTime(b), room) {
        Ok(totals) => hand(0, &[totals.pairs as u64, totals.bytes], places),
        Err(e) => hand(u32::from(e), &[0, 0], places),
    }
}
