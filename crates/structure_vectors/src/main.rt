// Writes, for each film that its arguments name, the number from 1 to 6 with which the crate shape refuses it, 0 for none. The films and the
// lines are those that the reference in host/reference writes.
#![tactic(auto)]

use program_input::{
    Argument, MOST_FILM, MOST_NAME, argument_at, name_given, open_named, read_full,
};
use refusals::code;
use std::io;
use std::rt::Files;
use structure::source::Source;

// A film of up to 65,536 bytes; of a longer one the rest is not read.
fn judge(reader: &mut impl io::Read) -> u32 {
    let mut room = [0u8; MOST_FILM];
    let count = read_full(reader, &mut room);
    code(&shape::judge(&room[..count], Source::whole()))
}

fn film(rt: &(impl Files + Print + Eprint), argument: Argument) -> io::Result<()> {
    let Some(name) = name_given(rt, argument)? else {
        return Ok(());
    };
    let Some(mut file) = open_named(rt, name)? else {
        return Ok(());
    };
    let number = judge(&mut file);
    rt.write_all(name)?;
    println!(rt; ": {number}")
}

fn main(rt: HostRuntime) -> io::Result<()> {
    for i in 1..usize::MAX {
        let mut room = [0u8; MOST_NAME];
        match argument_at(&rt, i, &mut room) {
            Some(next) => film(&rt, next)?,
            None => break,
        }
    }
    Ok(())
}
