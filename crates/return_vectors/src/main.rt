// Films filed in returns near their limits: totals of 2^64 - 1, and 31 and 32 scales. The films are the files that the arguments name; each is filed
// in each state. Then returns joined near the same limits.
#![tactic(auto)]

mod show;

use film_return::add_film;
use program_input::{MOST_FILM, MOST_NAME, argument_at, name_bytes, open_named, read_full};
use return_numbers::{NUMBERS, return_in};
use return_totals::{FilmReturn, MOST_SCALES, join_returns};
use std::io;
use std::rt::Files;
use structure::source::Source;

// How many states there are.
const STATES: usize = 26;

// The greatest total.
const GREATEST: u64 = u64::MAX;

// The first n scales are 1 to n, with no units; the count is stated by itself.
fn with_scales(n: usize, count: u64, accepted: u64) -> FilmReturn {
    let mut numbers = [0u64; NUMBERS];
    numbers[0] = accepted;
    numbers[18] = count;
    for i in 0..n.min(MOST_SCALES) {
        numbers[19 + i] = i as u64 + 1;
    }
    return_in(&numbers)
}

// One total is the greatest.
fn with_greatest(i: usize) -> FilmReturn {
    let mut numbers = [0u64; NUMBERS];
    if i < NUMBERS {
        numbers[i] = GREATEST;
    }
    return_in(&numbers)
}

// The scale 600 with those units.
fn with_units(units: u64) -> FilmReturn {
    let mut numbers = [0u64; NUMBERS];
    numbers[18] = 1;
    numbers[19] = 600;
    numbers[51] = units;
    return_in(&numbers)
}

fn state(k: usize) -> FilmReturn {
    match k {
        18 => with_scales(32, 32, 0),
        19 => with_scales(32, 32, GREATEST),
        20 => with_scales(32, 40, 0),
        21 => with_scales(31, 31, 0),
        22 => with_units(GREATEST - 120),
        23 => with_units(GREATEST - 119),
        24 => with_scales(17, 17, 0),
        25 => with_scales(16, 16, 0),
        _ => with_greatest(k),
    }
}

fn file_film(rt: &impl Print, film: &[u8]) -> io::Result<()> {
    for k in 0..STATES {
        show::filed(rt, k, add_film(state(k), film, Source::whole()))?;
    }
    Ok(())
}

fn file_named(rt: &(impl Files + Print + Eprint), name: &[u8]) -> io::Result<()> {
    let Some(mut file) = open_named(rt, name)? else {
        return Ok(());
    };
    let mut room = [0u8; MOST_FILM];
    let count = read_full(&mut file, &mut room);
    file_film(rt, &room[..count])
}

// How many pairs of returns are joined.
const PAIRS: usize = 29;

fn joined(r: FilmReturn, s: FilmReturn) -> FilmReturn {
    join_returns(r, s).totals
}

// The scales 1 to 31 and then 600, or 600 and then those.
fn scale_last() -> FilmReturn {
    joined(with_scales(31, 31, 0), with_units(7))
}

fn scale_first() -> FilmReturn {
    joined(with_units(5), with_scales(31, 31, 0))
}

fn left(k: usize) -> FilmReturn {
    match k {
        0 => with_scales(31, 31, 0),
        1 => with_units(5),
        2 => scale_last(),
        3 => scale_first(),
        4 => with_scales(32, 32, 0),
        5 => with_units(7),
        6 => with_scales(32, 40, 0),
        7 | 8 => with_scales(32, 32, GREATEST),
        9 => with_units(GREATEST - 7),
        10 => with_units(GREATEST - 6),
        _ => with_greatest(k % 18),
    }
}

fn right(k: usize) -> FilmReturn {
    match k {
        0 | 4 | 9 | 10 => with_units(7),
        1 => with_scales(31, 31, 0),
        2 => scale_first(),
        3 => scale_last(),
        5 => with_scales(32, 32, 0),
        6 => with_scales(17, 17, 0),
        7 => with_scales(32, 32, 1),
        8 => joined(with_scales(0, 0, 1), with_units(7)),
        _ => with_greatest(k % 18),
    }
}

fn join_pairs(rt: &impl Print) -> io::Result<()> {
    for k in 0..PAIRS {
        show::filed(rt, k, join_returns(left(k), right(k)))?;
    }
    Ok(())
}

fn main(rt: HostRuntime) -> io::Result<()> {
    for i in 1..usize::MAX {
        let mut room = [0u8; MOST_NAME];
        match argument_at(&rt, i, &mut room) {
            Some(next) => file_named(&rt, name_bytes(next))?,
            None => break,
        }
    }
    join_pairs(&rt)
}
