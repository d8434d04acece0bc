// Parts of what is lent, by value: where a part begins and how long it is. All parts of a track are found in one walk over each container.
#![tactic(auto)]

pub mod moov;
pub mod tables;
pub mod trak;

ghost use Rattle.std.specs.Prelude.{◌≡◌, take};
ghost use Rattle.atoms.specs.Atoms.{body_of, child_in};
ghost use Rattle.structure.specs.Movie.{moov_of};
ghost use Rattle.places.specs.Places.{part_in};
ghost use Rattle.places.specs.Finding.{first_part};

use atoms::{body_of, kinds, size_in};
use bigendian::{after, u32_at};

// It need not lie in what is lent: then it is what there is of it, or nothing.
#[derive(Clone, Copy)]
pub struct Part {
    pub at: usize,
    pub len: usize,
}

// The first n bytes; all where there are fewer.
fn front(s: &[u8], n: usize) -> &[u8]
    ensures { result.now ≡ take n s.now }
{
    if n <= s.len() {
        return &s[..n];
    }
    s
}

// The bytes of a part.
pub fn part_of<'a>(lent: &'a [u8], p: Part) -> &'a [u8]
    ensures { result.now ≡ part_in lent.now p }
{
    let at = p.at;
    let n = p.len;
    front(after(lent, at), n)
}

// The atom at i, counted from 0, among those of that kind in the body of that parent; empty where there are no more than i.
pub fn child_part(lent: &[u8], p: Part, parent: u32, kind: u32, i: usize) -> Part
    ensures { part_in lent.now result ≡ child_in parent kind i (part_in lent.now p) }
{
    let body = part_of(lent, p);
    let mut t = body;
    let mut at = p.at;
    let mut skip = i;
    loop {
        let n = size_in(t, parent);
        if n < 8 {
            return Part { at, len: 0 };
        }
        if u32_at(t, 4) == kind {
            if skip == 0 {
                return Part { at, len: n };
            }
            skip -= 1;
        }
        at += n;
        t = &t[n..];
    }
}

// The body of the atom that a part is.
pub fn body_part(lent: &[u8], p: Part) -> Part
    ensures { part_in lent.now result ≡ body_of (part_in lent.now p) }
{
    let atom = part_of(lent, p);
    let body = body_of(atom);
    Part {
        at: p.at + (atom.len() - body.len()),
        len: body.len(),
    }
}

// A part of what a part is, as a part of what is lent.
pub fn part_within(lent: &[u8], outer: Part, p: Part) -> Part
    ensures { part_in lent.now result ≡ part_in (part_in lent.now outer) p }
{
    let inner = part_of(lent, outer);
    let n = inner.len();
    let at = p.at;
    if n <= at {
        return Part { at: 0, len: 0 };
    }
    if p.len <= n - at {
        return Part {
            at: outer.at + at,
            len: p.len,
        };
    }
    Part {
        at: outer.at + at,
        len: n - at,
    }
}

// The body of the first moov; empty where there is none.
pub fn moov_part(lent: &[u8]) -> Part
    ensures { part_in lent.now result ≡ moov_of lent.now }
{
    let file = Part {
        at: 0,
        len: lent.len(),
    };
    let moov = child_part(lent, file, kinds::FILE, kinds::MOOV, 0);
    body_part(lent, moov)
}

// The first part of the kind wanted: the one found before, or else the next one if it is of that kind.
pub(crate) fn first_part(found: Part, wanted: u32, kind: u32, next: Part) -> Part
    ensures { result ≡ first_part found wanted kind next }
{
    if found.len != 0 {
        return found;
    }
    if kind == wanted {
        return next;
    }
    found
}
