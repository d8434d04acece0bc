// Steps through films, and writes a line for each step. Its arguments are files in pairs: a film, and another one. Each track of the first, by the
// IDs 1 to 3, is started at 0, 1, its middle, its last sample and one past it, and stepped to its end and once more; each position is then used on
// the other film, of which only that the steps end is written. The films and the lines are those that the reference in host/reference writes. Each
// start is made by a handle too: a line more says so where it is refused or stepped otherwise, or where its steps on the other film do not end.
#![tactic(auto)]

mod handles;

use handles::by_handle;
use program_input::{
    Argument, MOST_FILM, MOST_NAME, argument_at, name_bytes, name_given, open_named, read_full,
};
use questions::samples::Sample;
use std::io;
use std::rt::{Env, Files};
use stepping::{Step, Stepper};
use structure::source::Source;

// Decode time, duration, composition time, whether sync, description ID, chunk, offset and size.
fn line(rt: &impl Print, s: Sample) -> io::Result<()> {
    let sync = u32::from(s.sync);
    print!(rt; "    {} {} {} {sync}", s.decode, s.duration, s.composition)?;
    println!(rt; " {} {} {} {}", s.description, s.chunk, s.offset, s.size)
}

// A step past the last sample, and once more.
fn done_again(rt: &impl Print, film: &[u8], p: Stepper) -> io::Result<()> {
    match p.step(film) {
        Step::Next(s, _) => line(rt, s),
        Step::Done => println!(rt; "    done"),
    }
}

// The steps from a position to the end, a line each.
fn walk(rt: &impl Print, film: &[u8], p: Stepper) -> io::Result<()> {
    let mut q = p;
    for _ in 0..=p.samples {
        match q.step(film) {
            Step::Next(s, next) => {
                line(rt, s)?;
                q = next;
            }
            Step::Done => return done_again(rt, film, q),
        }
    }
    println!(rt; "    more")
}

// Whether the steps from a position of another film end before one more than it has samples.
fn ends(film: &[u8], p: Stepper) -> bool {
    let mut q = p;
    for _ in 0..=p.samples {
        match q.step(film) {
            Step::Next(_, next) => q = next,
            Step::Done => return true,
        }
    }
    false
}

// The samples of the track; 0 where a start at sample 1 is refused.
fn samples(film: &[u8], id: u32) -> u32 {
    match Stepper::at(film, Source::whole(), id, 1) {
        Ok(p) => p.samples,
        Err(_) => 0,
    }
}

fn started(rt: &impl Print, film: &[u8], other: &[u8], id: u32, n: u32) -> io::Result<()> {
    print!(rt; "  track {id} from {n}")?;
    match Stepper::at(film, Source::whole(), id, n) {
        Ok(p) => {
            println!(rt)?;
            walk(rt, film, p)?;
            if ends(other, p) {
                println!(rt; "    ends elsewhere")?;
            }
            Ok(())
        }
        Err(refusal) => println!(rt; " refused {}", u32::from(refusal)),
    }
}

fn both(rt: &impl Print, film: &[u8], other: &[u8], id: u32, n: u32) -> io::Result<()> {
    started(rt, film, other, id, n)?;
    by_handle(rt, film, other, id, n)
}

fn track(rt: &impl Print, film: &[u8], other: &[u8], id: u32) -> io::Result<()> {
    let n = samples(film, id);
    both(rt, film, other, id, 0)?;
    both(rt, film, other, id, 1)?;
    if 1 < n {
        both(rt, film, other, id, n / 2 + 1)?;
        both(rt, film, other, id, n)?;
    }
    match n.checked_add(1) {
        Some(past) => both(rt, film, other, id, past),
        None => Ok(()),
    }
}

fn tracks(rt: &impl Print, film: &[u8], other: &[u8]) -> io::Result<()> {
    for id in 1..=3 {
        track(rt, film, other, id)?;
    }
    Ok(())
}

// The file that an argument names, open for reading; none where it cannot be opened.
fn open_argument<R: Files + Eprint>(rt: &R, argument: Argument) -> io::Result<Option<R::File>> {
    match name_given(rt, argument)? {
        Some(name) => open_named(rt, name),
        None => Ok(None),
    }
}

// Up to 65,536 bytes of the other film; of a longer one the rest is not read.
fn with_other(rt: &impl Print, film: &[u8], reader: &mut impl io::Read) -> io::Result<()> {
    let mut room = [0u8; MOST_FILM];
    let count = read_full(reader, &mut room);
    tracks(rt, film, &room[..count])
}

fn beside(rt: &(impl Files + Print + Eprint), film: &[u8], other: Argument) -> io::Result<()> {
    let Some(mut file) = open_argument(rt, other)? else {
        return Ok(());
    };
    with_other(rt, film, &mut file)
}

// A film of up to 65,536 bytes; of a longer one the rest is not read.
fn read_film(
    rt: &(impl Files + Print + Eprint),
    reader: &mut impl io::Read,
    other: Argument,
) -> io::Result<()> {
    let mut room = [0u8; MOST_FILM];
    let count = read_full(reader, &mut room);
    beside(rt, &room[..count], other)
}

// A line with an argument.
fn heading(rt: &impl Print, argument: Argument) -> io::Result<()> {
    rt.write_all(name_bytes(argument))?;
    println!(rt)
}

fn pair(rt: &(impl Files + Print + Eprint), film: Argument, other: Argument) -> io::Result<()> {
    heading(rt, film)?;
    let Some(mut file) = open_argument(rt, film)? else {
        return Ok(());
    };
    read_film(rt, &mut file, other)
}

// The two films, by the arguments of those numbers. Answers whether there are both.
fn pair_at(
    rt: &(impl Files + Env + Print + Eprint),
    film: usize,
    other: usize,
) -> io::Result<bool> {
    let mut room = [0u8; MOST_NAME];
    let Some(first) = argument_at(rt, film, &mut room) else {
        return Ok(false);
    };
    let mut other_room = [0u8; MOST_NAME];
    let Some(second) = argument_at(rt, other, &mut other_room) else {
        return Ok(false);
    };
    pair(rt, first, second)?;
    Ok(true)
}

// The arguments after the program's own name, two by two.
fn main(rt: HostRuntime) -> io::Result<()> {
    for pair in 0..usize::MAX / 2 {
        if !pair_at(&rt, 2 * pair + 1, 2 * pair + 2)? {
            break;
        }
    }
    Ok(())
}
