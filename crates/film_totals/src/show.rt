// What the program prints, line by line.
use return_totals::{FilmReturn, MOST_SCALES};
use std::io;

fn text(rt: &impl Print, s: &[u8]) -> io::Result<()> {
    rt.write_all(s)
}

fn decimal(rt: &impl Print, n: u64) -> io::Result<()> {
    print!(rt; "{n}")
}

// A total, with a word before it.
fn line(rt: &impl Print, word: &[u8], total: u64) -> io::Result<()> {
    text(rt, word)?;
    text(rt, b" ")?;
    decimal(rt, total)?;
    text(rt, b"\n")
}

// The same with a number of the word's own.
fn numbered(rt: &impl Print, word: &[u8], number: u32, total: u64) -> io::Result<()> {
    text(rt, word)?;
    text(rt, b" ")?;
    decimal(rt, number as u64)?;
    line(rt, b"", total)
}

pub fn too_long(rt: &impl Print) -> io::Result<()> {
    text(rt, b"too long\n")
}

pub fn skipped(rt: &impl Print, name: &[u8]) -> io::Result<()> {
    text(rt, b"skipped ")?;
    text(rt, name)?;
    text(rt, b"\n")
}

// The number that a place among the fourteen stands for.
fn number_at(slot: u32) -> u32 {
    if slot < 13 { slot + 1 } else { 19 }
}

fn refused(rt: &impl Print, r: FilmReturn) -> io::Result<()> {
    let mut i: usize = 0;
    while i < 14 {
        numbered(rt, b"refused", number_at(i as u32), r.refused[i])?;
        i += 1;
    }
    Ok(())
}

fn scales(rt: &impl Print, r: FilmReturn) -> io::Result<()> {
    let count = r.count;
    let mut i: usize = 0;
    while i < count {
        if MOST_SCALES <= i {
            return Ok(());
        }
        numbered(rt, b"scale", r.scales[i], r.units[i])?;
        i += 1;
    }
    Ok(())
}

pub fn totals(rt: &impl Print, r: FilmReturn) -> io::Result<()> {
    line(rt, b"accepted", r.accepted)?;
    refused(rt, r)?;
    line(rt, b"tracks", r.tracks)?;
    line(rt, b"samples", r.samples)?;
    line(rt, b"bytes", r.bytes)?;
    scales(rt, r)
}
