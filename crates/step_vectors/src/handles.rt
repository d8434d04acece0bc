// Each start once more, by a handle of the track.
use super::ends;
use opened::Opened;
use opened_steps::start_by;
use questions::samples::Sample;
use refusals::Refusal;
use std::io;
use stepping::{Step, Stepper};
use structure::source::Source;

fn same_sample(a: Sample, b: Sample) -> bool {
    a.decode == b.decode
        && a.duration == b.duration
        && a.composition == b.composition
        && a.sync == b.sync
        && a.description == b.description
        && a.chunk == b.chunk
        && a.offset == b.offset
        && a.size == b.size
}

// Whether the steps from two positions give the same samples, and end together.
fn same_steps(film: &[u8], p: Stepper, q: Stepper) -> bool {
    let mut a = p;
    let mut b = q;
    for _ in 0..=p.samples {
        match (a.step(film), b.step(film)) {
            (Step::Next(s, m), Step::Next(t, n)) if same_sample(s, t) => {
                a = m;
                b = n;
            }
            (Step::Done, Step::Done) => return true,
            _ => return false,
        }
    }
    false
}

// Whether two starts are refused alike, or have the same steps.
fn same_starts(film: &[u8], a: Result<Stepper, Refusal>, b: Result<Stepper, Refusal>) -> bool {
    match (a, b) {
        (Ok(p), Ok(q)) => same_steps(film, p, q),
        (Err(r), Err(k)) => r == k,
        _ => false,
    }
}

// Whether the steps from a start end.
fn start_ends(film: &[u8], start: Result<Stepper, Refusal>) -> bool {
    match start {
        Ok(p) => ends(film, p),
        Err(_) => true,
    }
}

// A start by the handle, where there is one.
fn start_of(film: &[u8], o: Result<Opened, Refusal>, n: u32) -> Result<Stepper, Refusal> {
    start_by(film, o?, n)
}

// The same start by a handle, and the start by that handle on the other film.
pub fn by_handle(rt: &impl Print, film: &[u8], other: &[u8], id: u32, n: u32) -> io::Result<()> {
    let o = Opened::of(film, Source::whole(), id);
    let start = Stepper::at(film, Source::whole(), id, n);
    if !same_starts(film, start, start_of(film, o, n)) {
        println!(rt; "    otherwise by the handle")?;
    }
    if !start_ends(other, start_of(other, o, n)) {
        println!(rt; "    more by the handle elsewhere")?;
    }
    Ok(())
}
