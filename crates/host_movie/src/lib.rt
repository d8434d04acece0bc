// The movie's time scale and stored duration, and a track's edit list, for a caller in another language: the values in lent places, the entries in
// lent room.
#![tactic(auto)]

ghost use Rattle.hand.specs.Places.{Answers, Fills};
ghost use Rattle.movie_times.specs.Entries.{edit_numbers, edits_asked};
ghost use Rattle.host_movie.specs.Numbers.{of_movie, of_edits};

use hand::{hand, or_short};
use movie_times::entries::stored_edits;
use movie_times::header::movie_header;
use questions::ask_refusal;
use refusals::code;
use structure::source::Source;

// The movie's time scale and the duration that it states, in two places.
pub fn hand_movie(lent: &[u8], source: Source, places: &mut [u64]) -> u32
    ensures { Answers (of_movie lent.now source) places.old result places.new }
{
    match movie_header(lent, source) {
        Ok(times) => hand(0, &[times.scale as u64, times.duration as u64], places),
        Err(e) => hand(u32::from(e), &[0, 0], places),
    }
}

// The edit list of a track: duration, media time (-1 where nothing is shown) and rate of each entry in the room, and in one place how many entries.
pub fn hand_edits(lent: &[u8], source: Source, id: u32, room: &mut [i64], places: &mut [u64]) -> u32
    ensures { Fills (of_edits lent.now source id room.old) places.old (edit_numbers (edits_asked lent.now id)) room.old result places.new room.new }
{
    if places.len() < 1 {
        let asked = ask_refusal(lent, source, id);
        return or_short(code(&asked));
    }
    match stored_edits(lent, source, id, room) {
        Ok(n) => hand(0, &[n as u64], places),
        Err(e) => hand(u32::from(e), &[0], places),
    }
}
