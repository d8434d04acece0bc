// The walk over a file's top-level atoms for a caller in another language: its state in lent places.
#![tactic(auto)]

ghost use Rattle.std.specs.Prelude.{◌≡◌};
ghost use Rattle.hand.specs.Places.{Answers};
ghost use Rattle.host_top_level.specs.Numbers.{walk_in, of_step};

use hand::hand;
use table_numbers::number_at;
use top_level::{Next, Walk};

// The walk whose state is in the first five places.
fn walk_in(places: &[u64]) -> Walk
    ensures { result ≡ walk_in places.now }
{
    Walk {
        length: number_at(places, 0),
        place: number_at(places, 1),
        moovs: number_at(places, 2),
        at: number_at(places, 3),
        size: number_at(places, 4),
    }
}

// One step, with up to 16 bytes of the file at the walk's place. In six places, where the walk goes on: the file's length, where to read next, moovs met,
// the place and the size of the last one, and 0; where the moov is found: 0, 0, 1, its place, its size, and 1. Before the first step all but the length
// are 0.
pub fn hand_step(header: &[u8], places: &mut [u64]) -> u32
    ensures { Answers (of_step header.now places.old) places.old result places.new }
{
    let walk = walk_in(&places[..]);
    match walk.step(header) {
        Next::Read(w) => hand(0, &[w.length, w.place, w.moovs, w.at, w.size, 0], places),
        Next::Found(at, size) => hand(0, &[0, 0, 1, at, size, 1], places),
        Next::Refused(r) => hand(r, &[0, 0, 0, 0, 0, 0], places),
    }
}
