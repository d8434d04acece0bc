// Track lists asked for with rooms of several lengths.
ghost use Rattle.std.specs.Prelude.{◌≤◌};

use refusals::Refusal;
use std::io;
use structure::source::Source;
use track_list::{LINE, track_list};

// What every place holds before a list is asked for. No film has this number in its list.
const GUARD: u32 = 0xEEEEEEEE;

// The places of the longest room. The list of 16 tracks takes 128, and a room of three more is asked with.
const PLACES: usize = 136;

// The most tracks of a film that is not refused.
const MOST_TRACKS: usize = 16;

fn refused(rt: &impl Print, refusal: Refusal, room: &[u32]) -> io::Result<()> {
    let is_untouched = room.iter().all(|place| *place == GUARD);
    let left = if is_untouched { "untouched" } else { "touched" };
    print!(rt; "refused {}, {left}", u32::from(refusal))
}

// The count of tracks, and every place of the room.
fn listed(rt: &impl Print, count: usize, room: &[u32]) -> io::Result<()> {
    print!(rt; "tracks {count}, places")?;
    for place in room {
        print!(rt; " {place}")?;
    }
    Ok(())
}

fn ask(rt: &impl Print, film: &[u8], room: &mut [u32]) -> io::Result<()> {
    print!(rt; "room {}: ", room.len())?;
    match track_list(film, Source::whole(), room) {
        Ok(count) => listed(rt, count, room),
        Err(refusal) => refused(rt, refusal, room),
    }
}

// Asks for a film's list with a room of so many places, up to those of the longest.
pub fn ask_with(rt: &impl Print, film: &[u8], length: usize) -> io::Result<()> {
    let mut room = [GUARD; PLACES];
    match room.get_mut(..length) {
        Some(room) => ask(rt, film, room),
        None => Ok(()),
    }
}

// How many places a film's list takes; 0 where it is refused, or has more tracks than an accepted one.
fn places_of(film: &[u8]) -> usize
    ensures { result ≤ 128 }
{
    let mut room = [GUARD; PLACES];
    match track_list(film, Source::whole(), &mut room) {
        Ok(count) if count <= MOST_TRACKS => LINE * count,
        _ => 0,
    }
}

fn line(rt: &impl Print, film: &[u8], length: usize) -> io::Result<()> {
    print!(rt; "  ")?;
    ask_with(rt, film, length)?;
    println!(rt)
}

// Rooms of an accepted film: as long as the list, three longer, one shorter, and empty.
pub fn of_accepted(rt: &impl Print, film: &[u8]) -> io::Result<()> {
    let length = places_of(film);
    line(rt, film, length)?;
    line(rt, film, length + 3)?;
    if length > 0 {
        line(rt, film, length - 1)?;
        line(rt, film, 0)?;
    }
    Ok(())
}

// Rooms of a refused film: the longest, and an empty one, since the film's number comes before 16.
pub fn of_refused(rt: &impl Print, film: &[u8]) -> io::Result<()> {
    print!(rt; "; ")?;
    ask_with(rt, film, PLACES)?;
    print!(rt; "; ")?;
    ask_with(rt, film, 0)
}
