// The questions that lend no room.
use edits::{MediaTime, MovieTime};
use feature_questions::{feature_by_code, peak_by_code};
use questions::samples::{Sample, sample_by_number, sample_bytes};
use std::io;
use structure::source::Source;
use time_questions::{media_time_of, sample_at_time};

// Decode time, duration, composition time, whether sync, description ID, chunk, offset and size.
fn found(rt: &impl Print, s: Sample) -> io::Result<()> {
    let sync = if s.sync { "sync" } else { "not sync" };
    print!(rt; "{} {} {} {sync} ", s.decode, s.duration, s.composition)?;
    print!(rt;
        "{} chunk {} {} {}",
        s.description, s.chunk, s.offset, s.size
    )
}

// How many bytes were handed back, and their sum, which tells other bytes of the film from them. No film is long enough for it to wrap.
fn handed(rt: &impl Print, bytes: &[u8]) -> io::Result<()> {
    let sum = bytes
        .iter()
        .fold(0u64, |sum, byte| sum.wrapping_add(u64::from(*byte)));
    print!(rt; ", bytes {} sum {sum}", bytes.len())
}

// Sample n, and its bytes.
pub fn sample(rt: &impl Print, film: &[u8], id: u32, n: u32) -> io::Result<()> {
    print!(rt; "sample {id} {n}: ")?;
    match sample_by_number(film, Source::whole(), id, n) {
        Ok(s) => found(rt, s)?,
        Err(refusal) => print!(rt; "refused {}", u32::from(refusal))?,
    }
    handed(rt, sample_bytes(film, id, n))
}

// The sample at a media time: its number and the position of its entry.
pub fn at(rt: &impl Print, film: &[u8], id: u32, t: u32) -> io::Result<()> {
    print!(rt; "at {id} {t}: ")?;
    match sample_at_time(film, Source::whole(), id, MediaTime(t)) {
        Ok(x) => print!(rt; "{} entry {}", x.sample, x.entry),
        Err(refusal) => print!(rt; "refused {}", u32::from(refusal)),
    }
}

// Movie time to media time.
pub fn map(rt: &impl Print, film: &[u8], id: u32, t: u32) -> io::Result<()> {
    print!(rt; "map {id} {t}: ")?;
    match media_time_of(film, Source::whole(), id, MovieTime(t)) {
        Ok(Some(time)) => print!(rt; "{}", time.0),
        Ok(None) => print!(rt; "nothing"),
        Err(refusal) => print!(rt; "refused {}", u32::from(refusal)),
    }
}

// The name of a feature; of another code the hex digits.
fn code_name(rt: &impl Print, code: u32) -> io::Result<()> {
    match code {
        features::AVVB => print!(rt; "avvb"),
        features::AVAB => print!(rt; "avab"),
        features::TVSZ => print!(rt; "tvsz"),
        features::VFPS => print!(rt; "vfps"),
        features::MVBR => print!(rt; "mvbr"),
        features::MABR => print!(rt; "mabr"),
        _ => print!(rt; "{code:08x}"),
    }
}

// The question, the track asked and the feature's code.
fn asked_by_code(rt: &impl Print, words: &str, id: u32, code: u32) -> io::Result<()> {
    print!(rt; "{words} {id} ")?;
    code_name(rt, code)?;
    print!(rt; ": ")
}

// The value in decimal and in hex, since some have two halves of 16 bits.
pub fn feature(rt: &impl Print, film: &[u8], id: u32, code: u32) -> io::Result<()> {
    asked_by_code(rt, "feature", id, code)?;
    match feature_by_code(film, Source::whole(), id, code) {
        Ok(v) => print!(rt; "{v} = 0x{v:08x}"),
        Err(refusal) => print!(rt; "refused {}", u32::from(refusal)),
    }
}

// Where the highest rate over a second is: the number of the first sample, and how many there are.
pub fn peak(rt: &impl Print, film: &[u8], id: u32, code: u32) -> io::Result<()> {
    asked_by_code(rt, "peak", id, code)?;
    match peak_by_code(film, Source::whole(), id, code) {
        Ok(x) => print!(rt; "from {} count {}", x.first, x.count),
        Err(refusal) => print!(rt; "refused {}", u32::from(refusal)),
    }
}
