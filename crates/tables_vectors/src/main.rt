// Puts questions to the functions on sample tables and edit lists, and writes a line for each with the answers. Each file that its arguments name is a set:
// the atoms of an stbl and an elst one after the other, and among them atoms 'asks' with the questions. The sets and the lines are those that the reference
// in host/reference writes.
#![tactic(auto)]

mod answers;
mod asks;
mod show;

ghost use Rattle.std.specs.Prelude.{◌<◌, ◌^◌, length};

use program_input::{
    Argument, MOST_FILM, MOST_NAME, argument_at, name_given, open_named, read_full,
};
use std::io;
use std::rt::Files;

fn lines(rt: &impl Print, set: &[u8]) -> io::Result<()>
    requires { length set.now < 2 ^ 32 }
{
    for i in 0..set.len() {
        let atom = answers::child(set, asks::ASKS, i);
        if atom.is_empty() {
            break;
        }
        answers::line(rt, set, atom)?;
    }
    Ok(())
}

// A set of up to 65,536 bytes; of a longer one the rest is not read.
fn read(rt: &impl Print, reader: &mut impl io::Read) -> io::Result<()> {
    let mut room = [0u8; MOST_FILM];
    let count = read_full(reader, &mut room);
    lines(rt, &room[..count])
}

fn set(rt: &(impl Files + Print + Eprint), argument: Argument) -> io::Result<()> {
    let Some(name) = name_given(rt, argument)? else {
        return Ok(());
    };
    let Some(mut file) = open_named(rt, name)? else {
        return Ok(());
    };
    rt.write_all(name)?;
    println!(rt)?;
    read(rt, &mut file)
}

fn main(rt: HostRuntime) -> io::Result<()> {
    for i in 1..usize::MAX {
        let mut room = [0u8; MOST_NAME];
        match argument_at(&rt, i, &mut room) {
            Some(next) => set(&rt, next)?,
            None => break,
        }
    }
    Ok(())
}
