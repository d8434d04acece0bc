// Numbers and slips written, where they fit and where they do not.
use super::show;
use bigendian::{after, u64_at};
use slip::Head;
use std::io;

// What every byte holds before something is written, and the bytes of the longest room.
const BYTE: u8 = 0xEE;

const BYTES: usize = 4096;

fn number_in(rt: &impl Print, n: u64, at: usize, out: &mut [u8]) -> io::Result<()> {
    let length = leb128::number_len(n);
    let past = leb128::put_number(out, at, n).unwrap_or(at);
    print!(rt; ": number_len {length} place {past}")?;
    show::bytes(rt, " bytes", out)
}

// Writes a number at a place of so many bytes, up to those of the longest room.
pub fn number(rt: &impl Print, n: u64, at: usize, length: usize) -> io::Result<()> {
    let mut out = [BYTE; BYTES];
    match out.get_mut(..length) {
        Some(out) => number_in(rt, n, at, out),
        None => Ok(()),
    }
}

// The numbers of a case, 64 bits each: five of the slip's head, and those of its pairs.
const HEAD: usize = 40;

fn head_in(numbers: &[u8]) -> Head {
    Head {
        id: u64_at(numbers, 0),
        scale: u64_at(numbers, 8),
        a: u64_at(numbers, 16),
        b: u64_at(numbers, 24),
        pairs: u64_at(numbers, 32),
    }
}

// Writes numbers from a place on, and shows that place and the one past each that fits.
fn put_numbers(rt: &impl Print, numbers: &[u8], from: usize, out: &mut [u8]) -> io::Result<()> {
    print!(rt; " places {from}")?;
    let mut at = from;
    for number in numbers.chunks_exact(8) {
        at = leb128::put_number(out, at, u64_at(number, 0)).unwrap_or(at);
        print!(rt; " {at}")?;
    }
    Ok(())
}

fn slip_in(rt: &impl Print, numbers: &[u8], wide: bool, out: &mut [u8]) -> io::Result<()> {
    let head = head_in(numbers);
    print!(rt; ": head_len {}", slip::head_len(head))?;
    let from = slip::put_head(out, head, wide).unwrap_or(0);
    put_numbers(rt, after(numbers, HEAD), from, out)?;
    show::bytes(rt, " bytes", out)
}

// Writes a slip, number by number, of form 2 where wide, into so many bytes, up to those of the longest room.
pub fn slip(rt: &impl Print, numbers: &[u8], wide: bool, length: usize) -> io::Result<()> {
    let mut out = [BYTE; BYTES];
    match out.get_mut(..length) {
        Some(out) => slip_in(rt, numbers, wide, out),
        None => Ok(()),
    }
}
