// Writes, for each film that its arguments name, the number, 1 to 13 or 19, with which the crate movie refuses it, 0 for none, by default and where strict
// reading is asked for, and what the list of its tracks answers and puts into rooms of several lengths. The films and the lines are those that the reference in host/reference writes.
#![tactic(auto)]

mod rooms;

use program_input::{
    Argument, MOST_FILM, MOST_NAME, argument_at, name_given, open_named, read_full,
};
use refusals::code;
use std::io;
use std::rt::Files;
use structure::source::Source;

fn lines(rt: &impl Print, name: &[u8], film: &[u8]) -> io::Result<()> {
    let refusal = movie::refusal(film, Source::whole());
    let strict = movie::refusal(film, Source::whole().strictly());
    rt.write_all(name)?;
    print!(rt; ": {}, strictly {}", code(&refusal), code(&strict))?;
    if refusal.is_err() {
        rooms::of_refused(rt, film)?;
        println!(rt)
    } else {
        println!(rt)?;
        rooms::of_accepted(rt, film)
    }
}

// A film of up to 65,536 bytes; of a longer one the rest is not read.
fn read(rt: &impl Print, reader: &mut impl io::Read, name: &[u8]) -> io::Result<()> {
    let mut room = [0u8; MOST_FILM];
    let count = read_full(reader, &mut room);
    lines(rt, name, &room[..count])
}

fn film(rt: &(impl Files + Print + Eprint), argument: Argument) -> io::Result<()> {
    let Some(name) = name_given(rt, argument)? else {
        return Ok(());
    };
    let Some(mut file) = open_named(rt, name)? else {
        return Ok(());
    };
    read(rt, &mut file, name)
}

fn main(rt: HostRuntime) -> io::Result<()> {
    for i in 1..usize::MAX {
        let mut room = [0u8; MOST_NAME];
        match argument_at(&rt, i, &mut room) {
            Some(next) => film(&rt, next)?,
            None => break,
        }
    }
    Ok(())
}
