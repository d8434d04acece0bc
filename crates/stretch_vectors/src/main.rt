// Asks films for stretches and slips, and writes a line for each with all that is answered. Its arguments are files in pairs: a film, and the questions
// that it is asked. The films, the questions and the lines are those that the reference in host/reference writes.
#![tactic(auto)]

mod show;
mod slips;
mod stretches;

use bigendian::u32_at;
use program_input::{
    Argument, MOST_FILM, MOST_NAME, argument_at, name_bytes, name_given, open_named, read_full,
};
use std::io;
use std::rt::{Env, Files};

// The kinds of questions.
const STRETCH: u32 = 1;

const SLIP: u32 = 2;

// The bytes of a question: its kind, a track ID, two media times and the length of the room lent, 32 bits each.
const QUESTION: usize = 20;

// The most bytes of a film. In fewer no track has chunks enough for a stretch of 2^32 bytes.
const FILM: usize = 131584;

// A question but for its kind.
#[derive(Clone, Copy)]
pub struct Ask {
    pub id: u32,
    pub a: u32,
    pub b: u32,
    pub room: u32,
}

fn line(rt: &impl Print, film: &[u8], kind: u32, ask: Ask) -> io::Result<()> {
    match kind {
        STRETCH => {
            show::asked(rt, "stretch", ask)?;
            stretches::stretch(rt, film, ask)?;
        }
        SLIP => {
            show::asked(rt, "slip", ask)?;
            slips::slip(rt, film, ask)?;
        }
        _ => print!(rt; "  no question")?,
    }
    println!(rt)
}

fn lines(rt: &impl Print, film: &[u8], questions: &[u8]) -> io::Result<()> {
    for question in questions.chunks_exact(QUESTION) {
        let ask = Ask {
            id: u32_at(question, 4),
            a: u32_at(question, 8),
            b: u32_at(question, 12),
            room: u32_at(question, 16),
        };
        line(rt, film, u32_at(question, 0), ask)?;
    }
    Ok(())
}

// The file that an argument names, open for reading; none where it cannot be opened.
fn open_argument<R: Files + Eprint>(rt: &R, argument: Argument) -> io::Result<Option<R::File>> {
    match name_given(rt, argument)? {
        Some(name) => open_named(rt, name),
        None => Ok(None),
    }
}

// Up to 65,536 bytes of questions; of more the rest is not read.
fn read_questions(rt: &impl Print, film: &[u8], reader: &mut impl io::Read) -> io::Result<()> {
    let mut room = [0u8; MOST_FILM];
    let count = read_full(reader, &mut room);
    lines(rt, film, &room[..count])
}

// Asks a film the questions in the file that an argument names.
fn ask_all(rt: &(impl Files + Print + Eprint), film: &[u8], questions: Argument) -> io::Result<()> {
    let Some(mut file) = open_argument(rt, questions)? else {
        return Ok(());
    };
    read_questions(rt, film, &mut file)
}

// A film of up to so many bytes; of a longer one the rest is not read.
fn read_film(
    rt: &(impl Files + Print + Eprint),
    reader: &mut impl io::Read,
    questions: Argument,
) -> io::Result<()> {
    let mut room = [0u8; FILM];
    let count = read_full(reader, &mut room);
    ask_all(rt, &room[..count], questions)
}

// A line with an argument.
fn heading(rt: &impl Print, argument: Argument) -> io::Result<()> {
    rt.write_all(name_bytes(argument))?;
    println!(rt)
}

// A film and the questions that it is asked, each by the argument that names it.
fn pair(rt: &(impl Files + Print + Eprint), film: Argument, questions: Argument) -> io::Result<()> {
    heading(rt, film)?;
    let Some(mut file) = open_argument(rt, film)? else {
        return Ok(());
    };
    read_film(rt, &mut file, questions)
}

// The film and what it is asked, by the arguments of those numbers. Answers whether there are both.
fn pair_at(
    rt: &(impl Files + Env + Print + Eprint),
    film: usize,
    questions: usize,
) -> io::Result<bool> {
    let mut room = [0u8; MOST_NAME];
    let Some(first) = argument_at(rt, film, &mut room) else {
        return Ok(false);
    };
    let mut other_room = [0u8; MOST_NAME];
    let Some(second) = argument_at(rt, questions, &mut other_room) else {
        return Ok(false);
    };
    pair(rt, first, second)?;
    Ok(true)
}

// The arguments after the program's own name, two by two.
fn main(rt: HostRuntime) -> io::Result<()> {
    for pair in 0..usize::MAX / 2 {
        if !pair_at(&rt, 2 * pair + 1, 2 * pair + 2)? {
            break;
        }
    }
    Ok(())
}
