// What the lines are made of. A number is written with a blank before it.
use leb128::{Number, NumberFault};
use number_cursor::Cursor;
use slip::{Head, SlipError};
use std::{fmt, io};

// Words, and bytes after them, in hex.
pub fn bytes(rt: &impl Print, words: &str, s: &[u8]) -> io::Result<()> {
    print!(rt; "{words}")?;
    for byte in s {
        print!(rt; " {byte:02x}")?;
    }
    Ok(())
}

// Words, and numbers after them, of 32 bits or of 64.
pub fn numbers<T: fmt::Display>(rt: &impl Print, words: &str, s: &[T]) -> io::Result<()> {
    print!(rt; "{words}")?;
    for number in s {
        print!(rt; " {number}")?;
    }
    Ok(())
}

pub fn cursor(rt: &impl Print, words: &str, c: Cursor) -> io::Result<()> {
    print!(rt; "{words} {} count {}", c.at, c.count)
}

// Words, and what stands at a place after them.
pub fn number_read(rt: &impl Print, words: &str, r: Result<Number, NumberFault>) -> io::Result<()> {
    match r {
        Ok(number) => print!(rt; "{words} good {} past {}", number.value, number.next),
        Err(NumberFault::Broken(p)) => print!(rt; "{words} broken at {p}"),
        Err(NumberFault::Short(p)) => print!(rt; "{words} short at {p}"),
    }
}

pub fn slip_read(rt: &impl Print, r: Result<Head, SlipError>) -> io::Result<()> {
    match r {
        Ok(h) => {
            print!(rt;
                ": accepted {} {} {} {} {}",
                h.id, h.scale, h.a, h.b, h.pairs
            )
        }
        Err(SlipError::NoRoom) => print!(rt; ": refused 16"),
        Err(SlipError::Malformed(place)) => print!(rt; ": refused 17 at {place}"),
    }
}
