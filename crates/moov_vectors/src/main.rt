// Asks films by their moov atom alone, with the length of their file, and writes a line for each question. Each file that its arguments name is a film: the
// length of its file in 64 bits, and then its moov. The films and the lines are those that the reference in host/reference writes.
#![tactic(auto)]

mod ask;
mod show;

use bigendian::{after, u64_at};
use host_tracks::hand_track_list;
use program_input::{
    Argument, MOST_FILM, MOST_NAME, argument_at, name_given, open_named, read_full,
};
use std::io;
use std::rt::Files;
use structure::source::Source;
use track_list::LINE;

// An ID that no film has.
const STRANGER: u32 = 999;

fn samples(rt: &impl Print, moov: &[u8], length: u64, id: u32) -> io::Result<()> {
    ask::sample(rt, moov, length, id, 0)?;
    ask::sample(rt, moov, length, id, 1)?;
    ask::sample(rt, moov, length, id, 2)?;
    ask::sample(rt, moov, length, id, 3)?;
    ask::sample(rt, moov, length, id, 4)?;
    ask::sample(rt, moov, length, id, 5)
}

// A media time, and the same number as a movie time.
fn time(rt: &impl Print, moov: &[u8], length: u64, id: u32, t: u32) -> io::Result<()> {
    ask::at(rt, moov, length, id, t)?;
    ask::map(rt, moov, length, id, t)
}

fn times(rt: &impl Print, moov: &[u8], length: u64, id: u32) -> io::Result<()> {
    time(rt, moov, length, id, 0)?;
    time(rt, moov, length, id, 24)?;
    time(rt, moov, length, id, 72)?;
    time(rt, moov, length, id, 119)?;
    time(rt, moov, length, id, 120)
}

fn between(rt: &impl Print, moov: &[u8], length: u64, id: u32, a: u32, b: u32) -> io::Result<()> {
    ask::stretch(rt, moov, length, id, a, b)?;
    ask::slip(rt, moov, length, id, a, b)
}

fn stretches(rt: &impl Print, moov: &[u8], length: u64, id: u32) -> io::Result<()> {
    between(rt, moov, length, id, 24, 73)?;
    between(rt, moov, length, id, 0, 120)?;
    between(rt, moov, length, id, 24, 24)?;
    ask::rooms(rt, moov, length, id)
}

fn features(rt: &impl Print, moov: &[u8], length: u64, id: u32) -> io::Result<()> {
    ask::feature(rt, moov, length, id, features::AVVB)?;
    ask::feature(rt, moov, length, id, features::TVSZ)?;
    ask::feature(rt, moov, length, id, features::VFPS)?;
    ask::feature(rt, moov, length, id, features::MVBR)
}

fn track(rt: &impl Print, moov: &[u8], length: u64, id: u32) -> io::Result<()> {
    samples(rt, moov, length, id)?;
    times(rt, moov, length, id)?;
    stretches(rt, moov, length, id)?;
    features(rt, moov, length, id)?;
    ask::profile(rt, moov, length, id)
}

// Each question once, of an ID that may be no track's.
fn each(rt: &impl Print, moov: &[u8], length: u64, id: u32) -> io::Result<()> {
    ask::sample(rt, moov, length, id, 1)?;
    time(rt, moov, length, id, 0)?;
    between(rt, moov, length, id, 0, 1)?;
    ask::feature(rt, moov, length, id, features::AVVB)?;
    ask::profile(rt, moov, length, id)
}

// Every question of the first tracks of a list, as many as are counted.
fn tracks(rt: &impl Print, moov: &[u8], length: u64, list: &[u32], count: u64) -> io::Result<()> {
    let mut t = list;
    let mut left = count;
    while LINE <= t.len() {
        if left == 0 {
            return Ok(());
        }
        track(rt, moov, length, t[0])?;
        t = &t[LINE..];
        left -= 1;
    }
    Ok(())
}

// The list, with room for three tracks, and the questions.
fn film(rt: &impl Print, moov: &[u8], length: u64) -> io::Result<()> {
    let mut places = [ask::PLACE; 1];
    let mut room = [ask::GUARD; 24];
    let r = hand_track_list(moov, Source::of_moov(length), &mut room, &mut places);
    show::asked(rt, b"  tracks", 0, 24, r)?;
    show::numbers(rt, &places)?;
    show::words(rt, &room)?;
    show::text(rt, b"\n")?;
    tracks(rt, moov, length, &room, places[0])?;
    each(rt, moov, length, 0)?;
    each(rt, moov, length, 1)?;
    each(rt, moov, length, STRANGER)
}

fn stored(rt: &impl Print, file: &[u8]) -> io::Result<()> {
    film(rt, after(file, 8), u64_at(file, 0))
}

// A film of up to 65,536 bytes; of a longer one the rest is not read.
fn read(rt: &impl Print, reader: &mut impl io::Read) -> io::Result<()> {
    let mut room = [0u8; MOST_FILM];
    let count = read_full(reader, &mut room);
    let file = &room[..count];
    stored(rt, file)
}

fn open(rt: &(impl Files + Print + Eprint), name: &[u8]) -> io::Result<()> {
    show::text(rt, name)?;
    show::text(rt, b"\n")?;
    let Some(mut file) = open_named(rt, name)? else {
        return Ok(());
    };
    read(rt, &mut file)
}

fn named(rt: &(impl Files + Print + Eprint), argument: Argument) -> io::Result<()> {
    let Some(name) = name_given(rt, argument)? else {
        return Ok(());
    };
    open(rt, name)
}

fn main(rt: HostRuntime) -> io::Result<()> {
    for i in 1..usize::MAX {
        let mut room = [0u8; MOST_NAME];
        match argument_at(&rt, i, &mut room) {
            Some(next) => named(&rt, next)?,
            None => break,
        }
    }
    Ok(())
}
