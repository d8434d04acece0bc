// Asks films whether the profiles of their tracks are true, and writes a line for each ID from 0 to 9. Its arguments are the films.
// These and the lines are those that the reference in host/reference writes.
#![tactic(auto)]

use profile_checks::{ProfileCheck, check_profile};
use program_input::{
    Argument, MOST_FILM, MOST_NAME, argument_at, name_given, open_named, read_full,
};
use std::io;
use std::rt::Files;
use structure::source::Source;

fn line(rt: &impl Print, film: &[u8], id: u32) -> io::Result<()> {
    print!(rt; "  {id}")?;
    match check_profile(film, Source::whole(), id) {
        Ok(ProfileCheck::Yes) => println!(rt; ": yes"),
        Ok(ProfileCheck::Fault(place)) => println!(rt; ": record {place}"),
        Err(refusal) => println!(rt; ": refused {}", u32::from(refusal)),
    }
}

fn lines(rt: &impl Print, film: &[u8]) -> io::Result<()> {
    for id in 0..10 {
        line(rt, film, id)?;
    }
    Ok(())
}

// A film of up to 65,536 bytes; of a longer one the rest is not read.
fn read_film(rt: &impl Print, reader: &mut impl io::Read) -> io::Result<()> {
    let mut room = [0u8; MOST_FILM];
    let count = read_full(reader, &mut room);
    lines(rt, &room[..count])
}

fn ask(rt: &(impl Files + Print + Eprint), name: &[u8]) -> io::Result<()> {
    rt.write_all(name)?;
    println!(rt)?;
    let Some(mut file) = open_named(rt, name)? else {
        return Ok(());
    };
    read_film(rt, &mut file)
}

// The film that an argument names.
fn argument(rt: &(impl Files + Print + Eprint), argument: Argument) -> io::Result<()> {
    let Some(name) = name_given(rt, argument)? else {
        return Ok(());
    };
    ask(rt, name)
}

// The arguments after the program's own name.
fn main(rt: HostRuntime) -> io::Result<()> {
    for i in 1..usize::MAX {
        let mut room = [0u8; MOST_NAME];
        match argument_at(&rt, i, &mut room) {
            Some(next) => argument(&rt, next)?,
            None => break,
        }
    }
    Ok(())
}
