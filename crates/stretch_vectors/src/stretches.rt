// Stretches, asked for with rooms of the length that a question gives.
use super::{Ask, show};
use edits::MediaTime;
use std::io;
use stretch::stretch_of;

// What every place holds before a stretch is asked for. No film is long enough for it to be in a pair.
pub const GUARD: u32 = 0xEEEEEEEE;

// The places of the longest room: those of two pairs more than 2^15.
const PLACES: usize = 65540;

// The count of pairs, the total of bytes, the pairs, and whether the rest is as it was.
fn answered(rt: &impl Print, count: usize, bytes: u64, room: &[u32]) -> io::Result<()> {
    // An accepted stretch fills no more places than there are.
    let n = count.saturating_mul(2).min(room.len());
    print!(rt; "{count} pairs, {bytes} bytes:")?;
    show::pairs(rt, &room[..n])?;
    let left = show::left(&room[n..], GUARD);
    print!(rt; ", rest {left}")
}

fn ask_in(rt: &impl Print, film: &[u8], ask: Ask, room: &mut [u32]) -> io::Result<()> {
    match stretch_of(film, ask.id, MediaTime(ask.a), MediaTime(ask.b), room) {
        Ok(totals) => answered(rt, totals.pairs, totals.bytes, room),
        Err(refusal) => {
            let left = show::left(room, GUARD);
            print!(rt; "refused {}, {left}", u32::from(refusal))
        }
    }
}

// Asks with a room of so many places, up to those of the longest.
fn ask_with(rt: &impl Print, film: &[u8], ask: Ask, length: usize) -> io::Result<()> {
    let mut room = [GUARD; PLACES];
    match room.get_mut(..length) {
        Some(room) => ask_in(rt, film, ask, room),
        None => Ok(()),
    }
}

pub fn stretch(rt: &impl Print, film: &[u8], ask: Ask) -> io::Result<()> {
    ask_with(rt, film, ask, ask.room as usize)
}
