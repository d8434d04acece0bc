// Writes the moov atoms of films with their tables compact, and for each film a line with the answer and the bytes of the room after it. Each file
// that its arguments name is a film: the length of its file in 64 bits, or 0 for a whole file; the length of the room in 32 bits; and then the moov
// or the whole file. The films and the lines are those that the reference in host/reference writes.
#![tactic(auto)]

use bigendian::{after, u32_at, u64_at};
use compaction::compact_moov;
use program_input::{
    Argument, MOST_FILM, MOST_NAME, argument_at, name_given, open_named, read_full,
};
use std::io;
use std::rt::Files;
use structure::source::Source;

// The longest room, and what every byte of it holds before a film is compacted.
const BYTES: usize = 4096;

const BYTE: u8 = 0xEE;

fn ask_in(rt: &impl Print, input: &[u8], source: Source, room: &mut [u8]) -> io::Result<()> {
    match compact_moov(input, source, room) {
        Ok(n) => print!(rt; "length {n}")?,
        Err(refusal) => print!(rt; "refused {}", u32::from(refusal))?,
    }
    print!(rt; ", room ")?;
    for byte in room.iter() {
        print!(rt; "{byte:02x}")?;
    }
    Ok(())
}

fn ask_with(rt: &impl Print, input: &[u8], source: Source, length: usize) -> io::Result<()> {
    let mut room = [BYTE; BYTES];
    match room.get_mut(..length) {
        Some(room) => ask_in(rt, input, source, room),
        None => Ok(()),
    }
}

fn source_of(length: u64) -> Source {
    if length == 0 {
        Source::whole()
    } else {
        Source::of_moov(length)
    }
}

fn stored(rt: &impl Print, film: &[u8]) -> io::Result<()> {
    ask_with(
        rt,
        after(film, 12),
        source_of(u64_at(film, 0)),
        u32_at(film, 8) as usize,
    )?;
    println!(rt)
}

// A film of up to 65,536 bytes with its lengths; of a longer one the rest is not read.
fn read(rt: &impl Print, reader: &mut impl io::Read) -> io::Result<()> {
    let mut room = [0u8; MOST_FILM];
    let count = read_full(reader, &mut room);
    stored(rt, &room[..count])
}

fn open(rt: &(impl Files + Print + Eprint), name: &[u8]) -> io::Result<()> {
    rt.write_all(name)?;
    print!(rt; ": ")?;
    let Some(mut file) = open_named(rt, name)? else {
        return Ok(());
    };
    read(rt, &mut file)
}

fn film(rt: &(impl Files + Print + Eprint), argument: Argument) -> io::Result<()> {
    let Some(name) = name_given(rt, argument)? else {
        return Ok(());
    };
    open(rt, name)
}

fn main(rt: HostRuntime) -> io::Result<()> {
    for i in 1..usize::MAX {
        let mut room = [0u8; MOST_NAME];
        match argument_at(&rt, i, &mut room) {
            Some(next) => film(&rt, next)?,
            None => break,
        }
    }
    Ok(())
}
