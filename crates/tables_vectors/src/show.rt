// What the lines are made of.
use chunks::Located;
use edits::Mapped;
use runs::Timing;
use std::io;

pub fn truth(rt: &impl Print, b: bool) -> io::Result<()> {
    let word = if b { "yes" } else { "no" };
    print!(rt; "{word}")
}

pub fn total(rt: &impl Print, t: Option<u32>) -> io::Result<()> {
    match t {
        Some(n) => print!(rt; "{n}"),
        None => print!(rt; "over"),
    }
}

// The decode time and the duration.
pub fn timing(rt: &impl Print, t: Timing) -> io::Result<()> {
    print!(rt; "{}+{}", t.start, t.duration)
}

pub fn found(rt: &impl Print, f: Option<u64>) -> io::Result<()> {
    match f {
        Some(n) => print!(rt; "{n}"),
        None => print!(rt; "outside"),
    }
}

// The chunk, the place in it and the description ID.
pub fn located(rt: &impl Print, p: Located) -> io::Result<()> {
    print!(rt; "{}/{}/{}", p.chunk, p.within, p.description)
}

pub fn mapped(rt: &impl Print, m: Mapped) -> io::Result<()> {
    match m {
        Mapped::Media(t) => print!(rt; "{}", t.0),
        Mapped::Nothing => print!(rt; "nothing"),
        Mapped::Outside => print!(rt; "outside"),
    }
}
