// The listing program of document 01: reads a film of up to 65,536 bytes from standard input and prints the list of its tracks, or `refused` and a number,
// or `too long`. With arguments it lists each file that they name, one after the other; `-` is standard input.
#![tactic(auto)]

mod show;

use program_input::{
    Argument, MOST_FILM, MOST_NAME, argument_at, name_given, open_named, read_full,
};
use std::io;
use std::rt::Files;
use structure::source::Source;
use track_list::{LINE, Line, track_list};

// The track that the numbers of a line tell; none where they are too few.
fn line_in(numbers: &[u32]) -> Option<Line> {
    match numbers {
        &[id, subtype, scale, total, samples, chunks, edits, stored] => Some(Line {
            id,
            subtype,
            scale,
            total,
            samples,
            chunks,
            edits,
            stored,
        }),
        _ => None,
    }
}

// The lines of so many tracks, from the first places of the room; of fewer where it has no place for so many, which an accepted list never needs.
fn print_tracks(rt: &impl Print, room: &[u32], count: usize) -> io::Result<()> {
    for line in room.chunks_exact(LINE).take(count).filter_map(line_in) {
        show::line(rt, line)?;
    }
    Ok(())
}

fn print_list(rt: &impl Print, film: &[u8]) -> io::Result<()> {
    // Eight numbers for each of 16 tracks: more tracks are refused 6.
    let mut room = [0u32; 128];
    match track_list(film, Source::whole(), &mut room) {
        Ok(count) => {
            show::heading(rt)?;
            print_tracks(rt, &room, count)
        }
        Err(refusal) => println!(rt; "refused {}", u32::from(refusal)),
    }
}

// Lists the film that is read to the input's end, whatever is given at a time; a read that fails counts as the end. The room takes one byte more than
// a film may have, and only after so many is no more asked for: an input that has ended is not read again, since a terminal would wait.
fn list(rt: &impl Print, reader: &mut impl io::Read) -> io::Result<()> {
    let mut room = [0u8; MOST_FILM + 1];
    let count = read_full(reader, &mut room);
    if count > MOST_FILM {
        return println!(rt; "too long");
    }
    print_list(rt, &room[..count])
}

fn list_named(rt: &(impl Files + Input + Print + Eprint), name: &[u8]) -> io::Result<()> {
    if name == b"-".as_slice() {
        return list(rt, &mut rt.reader());
    }
    match open_named(rt, name)? {
        Some(mut file) => list(rt, &mut file),
        None => Ok(()),
    }
}

fn argument(rt: &(impl Files + Input + Print + Eprint), argument: Argument) -> io::Result<()> {
    match name_given(rt, argument)? {
        Some(name) => list_named(rt, name),
        None => Ok(()),
    }
}

fn main(rt: HostRuntime) -> io::Result<()> {
    for i in 1..usize::MAX {
        let mut room = [0u8; MOST_NAME];
        match argument_at(&rt, i, &mut room) {
            Some(next) => argument(&rt, next)?,
            None => {
                if i == 1 {
                    list(&rt, &mut rt.reader())?;
                }
                break;
            }
        }
    }
    Ok(())
}
