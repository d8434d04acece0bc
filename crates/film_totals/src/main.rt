// The film return of document 02: reads file names, one to a line, from standard input, up to 65,536 bytes in all, and prints `skipped` and the name
// for each file that is not counted, and then the totals; for more bytes it prints only `too long`. Standard input that cannot be read is no empty
// return: the program then writes to standard error alone.
#![tactic(auto)]

mod reading;
mod show;

ghost use Rattle.std.specs.Prelude.{◌≡◌, ◌≤◌, length};
ghost use Rattle.film_totals.specs.Names.{name_length};

use film_return::add_film;
use program_input::MOST_FILM;
use reading::{read_from, read_named};
use return_totals::FilmReturn;
use std::io;
use std::rt::Files;
use structure::source::Source;

// The return with the film in it, if it is counted.
fn with_film(rt: &impl Print, r: FilmReturn, film: &[u8], name: &[u8]) -> io::Result<FilmReturn> {
    let filed = add_film(r, film, Source::whole());
    if filed.refusal != 0 {
        show::skipped(rt, name)?;
    }
    let totals = filed.totals;
    Ok(totals)
}

// The return with the film of that name in it, if it is counted.
fn with_named(rt: &(impl Files + Print), r: FilmReturn, name: &[u8]) -> io::Result<FilmReturn> {
    let mut room = [0u8; MOST_FILM];
    let read = read_named(rt, name, &mut room);
    if read.failure.is_some() {
        show::skipped(rt, name)?;
        return Ok(r);
    }
    if read.longer {
        show::skipped(rt, name)?;
        return Ok(r);
    }
    let n = read.count;
    with_film(rt, r, &room[..n], name)
}

// How many bytes stand before the first line feed; all where there is none.
fn name_length(names: &[u8]) -> usize
    ensures { (result ≡ name_length names.now) × (result ≤ length names.now) }
{
    let mut i: usize = 0;
    while i < names.len() {
        if names[i] == b'\n' {
            return i;
        }
        i += 1;
    }
    i
}

fn print_return(rt: &(impl Files + Print), names: &[u8]) -> io::Result<()> {
    let mut r = FilmReturn::empty();
    let mut rest = names;
    while 0 < rest.len() {
        let n = name_length(rest);
        let next = with_named(rt, r, &rest[..n])?;
        r = next;
        if n == rest.len() {
            rest = &rest[n..];
        } else {
            rest = &rest[n + 1..];
        }
    }
    show::totals(rt, r)
}

fn main(rt: HostRuntime) -> io::Result<()> {
    let mut names = [0u8; MOST_FILM];
    let read = read_from(&mut rt.reader(), &mut names);
    if let Some(kind) = read.failure {
        return eprintln!(rt; "standard input: {kind}");
    }
    if read.longer {
        return show::too_long(&rt);
    }
    let n = read.count;
    print_return(&rt, &names[..n])
}
