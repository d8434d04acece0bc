// The film time that slips file, beside the film time in the movie.
use edits::MediaTime;
use questions::samples::sample_by_number;
use refusals::Refusal;
use slip::{SlipError, read_slip};
use slip_writing::write_slip;
use std::io;
use structure::source::Source;

// More bytes than a slip of a film of 65,536 bytes can have: its chunks are fewer than 16,384, and a pair takes six bytes at most.
const BYTES: usize = 131072;

// More places than the pairs of such a slip can have.
const PLACES: usize = 65536;

// The film time that a slip files, which is read from its bytes alone.
fn filed_by(bytes: &[u8]) -> Result<u32, Refusal> {
    let mut room = [0u32; PLACES];
    match read_slip(bytes, &mut room) {
        Ok(head) => Ok(narrow(head.b.saturating_sub(head.a))),
        Err(SlipError::Malformed(_)) => Err(Refusal::MalformedSlip),
        Err(SlipError::NoRoom) => Err(Refusal::NoRoom),
    }
}

// Writes the slip of a track from a to b, and reads it back: the film time that it files.
fn filed(film: &[u8], id: u32, a: u32, b: u32) -> Result<u32, Refusal> {
    let mut out = [0u8; BYTES];
    let count = write_slip(film, id, MediaTime(a), MediaTime(b), &mut out)?;
    filed_by(&out[..count.min(BYTES)])
}

// A time as 32 bits hold it. A sample of an accepted film starts at no greater one.
fn narrow(t: u64) -> u32 {
    u32::try_from(t).unwrap_or(0)
}

// Where the second sample of a track starts; 0 where it has none.
fn second_start(film: &[u8], id: u32) -> u32 {
    match sample_by_number(film, Source::whole(), id, 2) {
        Ok(sample) => narrow(sample.decode),
        Err(_) => 0,
    }
}

fn verdict(units: u64, total: u32) -> &'static str {
    if units == u64::from(total) {
        "adds up"
    } else {
        "does not add up"
    }
}

fn in_one_slip(rt: &impl Print, film: &[u8], id: u32, total: u32) -> io::Result<()> {
    match filed(film, id, 0, total) {
        Ok(units) => {
            let verdict = verdict(units as u64, total);
            println!(rt;
                "one slip files {units} units of film time, the movie has {total}: {verdict}"
            )
        }
        Err(refusal) => println!(rt; "refused {}", u32::from(refusal)),
    }
}

// The film times of two slips that meet at `cut`; the refusal of the first that is refused.
fn filed_twice(film: &[u8], id: u32, cut: u32, total: u32) -> Result<(u32, u32), Refusal> {
    let first = filed(film, id, 0, cut)?;
    let second = filed(film, id, cut, total)?;
    Ok((first, second))
}

fn in_two_slips(rt: &impl Print, film: &[u8], id: u32, cut: u32, total: u32) -> io::Result<()> {
    match filed_twice(film, id, cut, total) {
        Ok((first, second)) => {
            let verdict = verdict(first as u64 + second as u64, total);
            print!(rt; "one slip files {first} units of film time and one {second}")?;
            println!(rt; ", the movie has {total}: {verdict}")
        }
        Err(refusal) => println!(rt; "refused {}", u32::from(refusal)),
    }
}

// Files the whole of a track in two slips, which meet where its second sample starts; in one where no film time lies before that or after it.
pub fn account(rt: &impl Print, film: &[u8], id: u32, total: u32) -> io::Result<()> {
    print!(rt; "track {id}: ")?;
    if total == 0 {
        return println!(rt; "no film time");
    }
    let cut = second_start(film, id);
    if 0 < cut && cut < total {
        in_two_slips(rt, film, id, cut, total)
    } else {
        in_one_slip(rt, film, id, total)
    }
}
