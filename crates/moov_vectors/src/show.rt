// What the lines are made of.
use signs::absolute;
use std::io;

pub fn text(rt: &impl Print, s: &[u8]) -> io::Result<()> {
    rt.write_all(s)
}

fn number(rt: &impl Print, n: u64) -> io::Result<()> {
    print!(rt; "{n}")
}

// A blank, and a number after it.
pub fn next(rt: &impl Print, n: u64) -> io::Result<()> {
    text(rt, b" ")?;
    number(rt, n)
}

// The question, the track asked, and the result: 0 or the refusal.
pub fn asked(rt: &impl Print, words: &[u8], id: u32, n: u32, res: u32) -> io::Result<()> {
    text(rt, words)?;
    next(rt, id as u64)?;
    next(rt, n as u64)?;
    text(rt, b":")?;
    next(rt, res as u64)
}

// The same of a question with two media times.
pub fn between(rt: &impl Print, words: &[u8], id: u32, a: u32, b: u32, res: u32) -> io::Result<()> {
    text(rt, words)?;
    next(rt, id as u64)?;
    asked(rt, b"", a, b, res)
}

// What is below 0 is counted from -1 on, so that the least number has its place too.
fn signed(rt: &impl Print, n: i64) -> io::Result<()> {
    text(rt, b" ")?;
    if n < 0 {
        text(rt, b"-")?;
    }
    number(rt, absolute(n))
}

pub fn signed_numbers(rt: &impl Print, s: &[i64]) -> io::Result<()> {
    let mut i = 0;
    while i < s.len() {
        signed(rt, s[i])?;
        i += 1;
    }
    Ok(())
}

pub fn numbers(rt: &impl Print, s: &[u64]) -> io::Result<()> {
    let mut i = 0;
    while i < s.len() {
        next(rt, s[i])?;
        i += 1;
    }
    Ok(())
}

fn word(rt: &impl Print, n: u32) -> io::Result<()> {
    next(rt, n as u64)
}

pub fn words(rt: &impl Print, s: &[u32]) -> io::Result<()> {
    let mut i = 0;
    while i < s.len() {
        word(rt, s[i])?;
        i += 1;
    }
    Ok(())
}

// Two hex digits.
fn hex(rt: &impl Print, byte: u8) -> io::Result<()> {
    print!(rt; "{byte:02x}")
}

pub fn bytes(rt: &impl Print, s: &[u8]) -> io::Result<()> {
    let mut i = 0;
    while i < s.len() {
        hex(rt, s[i])?;
        i += 1;
    }
    Ok(())
}
