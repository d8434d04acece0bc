// The track list, for a caller in another language: the list in lent room, how many tracks in a lent place.
#![tactic(auto)]

ghost use Rattle.track_list.specs.TrackList.{track_lines};
ghost use Rattle.hand.specs.Places.{Fills};
ghost use Rattle.host_tracks.specs.Numbers.{of_track_list};

use hand::{hand, or_short};
use refusals::code;
use structure::source::Source;
use track_list::track_list;

// Lists the tracks of a film: eight numbers for each in the room, and in one place how many tracks.
pub fn hand_track_list(lent: &[u8], source: Source, room: &mut [u32], places: &mut [u64]) -> u32
    ensures { Fills (of_track_list lent.now source room.old) places.old (track_lines lent.now) room.old result places.new room.new }
{
    if places.len() < 1 {
        let asked = movie::refusal(lent, source);
        return or_short(code(&asked));
    }
    match track_list(lent, source, room) {
        Ok(n) => hand(0, &[n as u64], places),
        Err(e) => hand(u32::from(e), &[0], places),
    }
}
