// The stored profile of a movie or of one of its tracks, for a caller in another language: records in lent room, their number in a lent place.
#![tactic(auto)]

ghost use Rattle.profiles.specs.Profiles.{profile_numbers};
ghost use Rattle.hand.specs.Places.{Fills};
ghost use Rattle.host_profiles.specs.Numbers.{of_profile};

use hand::{hand, or_short};
use profiles::{id_refusal, stored_profile};
use refusals::code;
use structure::source::Source;

// The stored profile of a track, or for ID 0 of the movie: three numbers for each record in the room, and in one place how many records.
pub fn hand_profile(
    lent: &[u8],
    source: Source,
    id: u32,
    room: &mut [u32],
    places: &mut [u64],
) -> u32
    ensures { Fills (of_profile lent.now source id room.old) places.old (profile_numbers lent.now id) room.old result places.new room.new }
{
    if places.len() < 1 {
        let asked = id_refusal(lent, source, id);
        return or_short(code(&asked));
    }
    match stored_profile(lent, source, id, room) {
        Ok(n) => hand(0, &[n as u64], places),
        Err(e) => hand(u32::from(e), &[0], places),
    }
}
