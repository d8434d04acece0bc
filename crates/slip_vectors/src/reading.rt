// Numbers and slips read.
use super::show;
use number_cursor::Cursor;
use std::io;

// What stands at a place, by the place and by the cursor, and the cursor after it.
pub fn number(rt: &impl Print, bytes: &[u8], before: u64, at: usize, wide: bool) -> io::Result<()> {
    let count = before as usize;
    let mut cursor = Cursor { at, count, wide };
    show::bytes(rt, ":", bytes)?;
    show::cursor(rt, " from", cursor)?;
    show::number_read(rt, ": number_at", leb128::number_at(bytes, at, wide))?;
    show::number_read(rt, " next_number", cursor.advance(bytes))?;
    show::cursor(rt, " to", cursor)
}

// What every place holds before a slip is read, and the places of the longest room.
const GUARD: u32 = 9;

const WIDE_GUARD: u64 = 9;

const PLACES: usize = 1024;

// The slip, the answer, and every place of the room.
fn slip_into(rt: &impl Print, bytes: &[u8], room: &mut [u32]) -> io::Result<()> {
    show::bytes(rt, ":", bytes)?;
    show::slip_read(rt, slip::read_slip(bytes, room))?;
    show::numbers(rt, " room", room)
}

// Reads a slip into a room of that length, up to that of the longest.
pub fn slip(rt: &impl Print, bytes: &[u8], length: usize) -> io::Result<()> {
    let mut room = [GUARD; PLACES];
    match room.get_mut(..length) {
        Some(room) => slip_into(rt, bytes, room),
        None => Ok(()),
    }
}

fn any_slip_into(rt: &impl Print, bytes: &[u8], room: &mut [u64]) -> io::Result<()> {
    show::bytes(rt, ":", bytes)?;
    show::slip_read(rt, slip::read_any_slip(bytes, room))?;
    show::numbers(rt, " room", room)
}

// The same by the reader of both forms.
pub fn any_slip(rt: &impl Print, bytes: &[u8], length: usize) -> io::Result<()> {
    let mut room = [WIDE_GUARD; PLACES];
    match room.get_mut(..length) {
        Some(room) => any_slip_into(rt, bytes, room),
        None => Ok(()),
    }
}
