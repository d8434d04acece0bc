// Stored profiles, asked for with rooms of the length that a question gives.
use profiles::{RECORD, stored_profile};
use std::io;
use structure::source::Source;

// What every place holds before a profile is asked for. No film has this number in a profile.
const GUARD: u32 = 0xEEEEEEEE;

// The places of the longest room.
const PLACES: usize = 64;

// Whether the places are as they were, as a word.
fn left(room: &[u32]) -> &'static str {
    if room.iter().all(|place| *place == GUARD) {
        "untouched"
    } else {
        "touched"
    }
}

// The count of records, the places filled, and whether the rest is as it was.
fn kept(rt: &impl Print, count: usize, room: &[u32]) -> io::Result<()> {
    // An accepted profile fills no more places than there are.
    let n = count.saturating_mul(RECORD).min(room.len());
    print!(rt; "{count} records")?;
    for place in &room[..n] {
        print!(rt; " {place}")?;
    }
    let left = left(&room[n..]);
    print!(rt; ", rest {left}")
}

fn ask(rt: &impl Print, film: &[u8], id: u32, room: &mut [u32]) -> io::Result<()> {
    match stored_profile(film, Source::whole(), id, room) {
        Ok(count) => kept(rt, count, room),
        Err(refusal) => {
            let left = left(room);
            print!(rt; "refused {}, {left}", u32::from(refusal))
        }
    }
}

// Asks with a room of so many places, up to those of the longest.
fn ask_with(rt: &impl Print, film: &[u8], id: u32, length: usize) -> io::Result<()> {
    let mut room = [GUARD; PLACES];
    match room.get_mut(..length) {
        Some(room) => ask(rt, film, id, room),
        None => Ok(()),
    }
}

// The stored profile of a track, or of the movie.
pub fn profile(rt: &impl Print, film: &[u8], id: u32, length: u32) -> io::Result<()> {
    print!(rt; "profile {id} room {length}: ")?;
    ask_with(rt, film, id, length as usize)
}
