// Slips, written into rooms of the length that a question gives and read back.
use super::stretches::GUARD;
use super::{Ask, show};
use edits::MediaTime;
use slip::{Head, read_slip};
use slip_writing::write_slip;
use std::io;
use stretch::stretch_of;
use structure::source::Source;
use track_list::{LINE, track_list};

// What every byte holds before a slip is asked for.
const BYTE: u8 = 0xEE;

// The bytes of the longest room, and as many places, which hold the pairs of any slip in it.
const BYTES: usize = 1024;

// The scale that the list of tracks has beside an ID; 0 where it has not that ID.
fn scale_beside(list: &[u32], id: u32) -> u32 {
    for line in list.chunks_exact(LINE) {
        if let [line_id, _, scale, ..] = line
            && *line_id == id
        {
            return *scale;
        }
    }
    0
}

fn scale_of(film: &[u8], id: u32) -> u32 {
    // Eight numbers for each of 16 tracks. The places after the last track hold no ID that is asked for.
    let mut room = [0u32; 128];
    match track_list(film, Source::whole(), &mut room) {
        Ok(_) => scale_beside(&room, id),
        Err(_) => 0,
    }
}

// Whether a head has the numbers of the question, the scale that the list of tracks has, and so many pairs.
fn is_head(film: &[u8], ask: Ask, head: Head, count: usize) -> bool {
    let scale = scale_of(film, ask.id);
    head.id == ask.id as u64
        && head.scale == scale as u64
        && head.a == ask.a as u64
        && head.b == ask.b as u64
        && head.pairs == count as u64
}

// Whether the stretch asked for has the pairs that a room has, and nothing after them.
fn is_stretch(film: &[u8], ask: Ask, head: Head, read: &[u32]) -> bool {
    let mut room = [GUARD; BYTES];
    match stretch_of(film, ask.id, MediaTime(ask.a), MediaTime(ask.b), &mut room) {
        Ok(totals) => is_head(film, ask, head, totals.pairs) && *read == *room.as_slice(),
        Err(_) => false,
    }
}

fn reads_back(film: &[u8], ask: Ask, bytes: &[u8]) -> bool {
    let mut room = [GUARD; BYTES];
    match read_slip(bytes, &mut room) {
        Ok(head) => is_stretch(film, ask, head, &room),
        Err(_) => false,
    }
}

// The slip's length, its bytes, whether the rest is as it was, and whether the slip reads back.
fn written(rt: &impl Print, film: &[u8], ask: Ask, count: usize, room: &[u8]) -> io::Result<()> {
    // A slip that was written fills no more bytes than there are.
    let n = count.min(room.len());
    let slip = &room[..n];
    print!(rt; "{count} bytes ")?;
    show::bytes(rt, slip)?;
    let left = show::left(&room[n..], BYTE);
    let back = if reads_back(film, ask, slip) {
        "reads back"
    } else {
        "differs"
    };
    print!(rt; ", rest {left}, {back}")
}

fn ask_in(rt: &impl Print, film: &[u8], ask: Ask, room: &mut [u8]) -> io::Result<()> {
    match write_slip(film, ask.id, MediaTime(ask.a), MediaTime(ask.b), room) {
        Ok(count) => written(rt, film, ask, count, room),
        Err(refusal) => {
            let left = show::left(room, BYTE);
            print!(rt; "refused {}, {left}", u32::from(refusal))
        }
    }
}

// Asks with a room of so many bytes, up to those of the longest.
fn ask_with(rt: &impl Print, film: &[u8], ask: Ask, length: usize) -> io::Result<()> {
    let mut room = [BYTE; BYTES];
    match room.get_mut(..length) {
        Some(room) => ask_in(rt, film, ask, room),
        None => Ok(()),
    }
}

pub fn slip(rt: &impl Print, film: &[u8], ask: Ask) -> io::Result<()> {
    ask_with(rt, film, ask, ask.room as usize)
}
