// Asks films whether they keep the quay film profile, and writes a line for each. Each file that its arguments name is a film: the
// length of its file in 64 bits, and then its moov; or 0, and then the whole file. The films and the lines are those that the reference
// in host/reference writes.
#![tactic(auto)]

use bigendian::{after, u64_at};
use program_input::{
    Argument, MOST_FILM, MOST_NAME, argument_at, name_given, open_named, read_full,
};
use quay::check_quay;
use std::io;
use std::rt::Files;
use structure::source::Source;

fn line(rt: &impl Print, lent: &[u8], source: Source) -> io::Result<()> {
    match check_quay(lent, source) {
        Ok(None) => println!(rt; "yes"),
        Ok(Some(breach)) => println!(rt; "breaks {}, track {}", breach.rule, breach.track),
        Err(refusal) => println!(rt; "refused {}", u32::from(refusal)),
    }
}

fn source_of(length: u64) -> Source {
    if length == 0 {
        Source::whole()
    } else {
        Source::of_moov(length)
    }
}

fn stored(rt: &impl Print, film: &[u8]) -> io::Result<()> {
    line(rt, after(film, 8), source_of(u64_at(film, 0)))
}

// A film of up to 65,536 bytes with its length; of a longer one the rest is not read.
fn read(rt: &impl Print, reader: &mut impl io::Read) -> io::Result<()> {
    let mut room = [0u8; MOST_FILM];
    let count = read_full(reader, &mut room);
    stored(rt, &room[..count])
}

fn open(rt: &(impl Files + Print + Eprint), name: &[u8]) -> io::Result<()> {
    rt.write_all(name)?;
    print!(rt; ": ")?;
    let Some(mut file) = open_named(rt, name)? else {
        return Ok(());
    };
    read(rt, &mut file)
}

fn film(rt: &(impl Files + Print + Eprint), argument: Argument) -> io::Result<()> {
    let Some(name) = name_given(rt, argument)? else {
        return Ok(());
    };
    open(rt, name)
}

fn main(rt: HostRuntime) -> io::Result<()> {
    for i in 1..usize::MAX {
        let mut room = [0u8; MOST_NAME];
        match argument_at(&rt, i, &mut room) {
            Some(next) => film(&rt, next)?,
            None => break,
        }
    }
    Ok(())
}
