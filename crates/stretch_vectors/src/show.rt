// What the lines are made of.
use super::Ask;
use std::io;

// The question.
pub fn asked(rt: &impl Print, words: &str, ask: Ask) -> io::Result<()> {
    print!(rt;
        "  {words} {} {} {} room {}: ",
        ask.id, ask.a, ask.b, ask.room
    )
}

// Whether every place holds what it held, as a word.
pub fn left<T: Copy + PartialEq>(room: &[T], guard: T) -> &'static str {
    if room.iter().all(|place| *place == guard) {
        "untouched"
    } else {
        "touched"
    }
}

pub fn bytes(rt: &impl Print, s: &[u8]) -> io::Result<()> {
    for byte in s {
        print!(rt; "{byte:02x}")?;
    }
    Ok(())
}

// A pair, and how many of it there are in a row if there is more than one.
fn pair(rt: &impl Print, offset: u32, length: u32, times: u64) -> io::Result<()> {
    print!(rt; " {offset}+{length}")?;
    if times > 1 {
        print!(rt; " x{times}")?;
    }
    Ok(())
}

// Each pair with a blank before it; of pairs in a row that are alike the last.
pub fn pairs(rt: &impl Print, s: &[u32]) -> io::Result<()> {
    let mut times: u64 = 1;
    let mut rest = s;
    while let [offset, length, next @ ..] = rest {
        if next.starts_with(&[*offset, *length]) {
            times = times.saturating_add(1);
        } else {
            pair(rt, *offset, *length, times)?;
            times = 1;
        }
        rest = next;
    }
    Ok(())
}
