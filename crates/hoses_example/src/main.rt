// Answers the regulator's three questions for a film of hoses, of up to 65,536 bytes, which is read from standard input; prints `refused` and a number for
// one that is refused, and `too long` for a longer one. With arguments it answers for each file that they name, one after the other; `-` is standard input.
#![tactic(auto)]

mod answers;
mod filing;

use program_input::{
    Argument, MOST_FILM, MOST_NAME, argument_at, name_given, open_named, read_full,
};
use std::io;
use std::rt::Files;

// The film is read to the input's end, as the listing does, into a room that takes one byte more than a film may have.
fn answer_input(rt: &impl Print, reader: &mut impl io::Read) -> io::Result<()> {
    let mut room = [0u8; MOST_FILM + 1];
    let count = read_full(reader, &mut room);
    if count > MOST_FILM {
        return println!(rt; "too long");
    }
    answers::answer(rt, &room[..count])
}

fn answer_named(rt: &(impl Files + Input + Print + Eprint), name: &[u8]) -> io::Result<()> {
    if name == b"-".as_slice() {
        return answer_input(rt, &mut rt.reader());
    }
    match open_named(rt, name)? {
        Some(mut file) => answer_input(rt, &mut file),
        None => Ok(()),
    }
}

fn argument(rt: &(impl Files + Input + Print + Eprint), argument: Argument) -> io::Result<()> {
    match name_given(rt, argument)? {
        Some(name) => answer_named(rt, name),
        None => Ok(()),
    }
}

fn main(rt: HostRuntime) -> io::Result<()> {
    for i in 1..usize::MAX {
        let mut room = [0u8; MOST_NAME];
        match argument_at(&rt, i, &mut room) {
            Some(next) => argument(&rt, next)?,
            None => {
                if i == 1 {
                    answer_input(&rt, &mut rt.reader())?;
                }
                break;
            }
        }
    }
    Ok(())
}
