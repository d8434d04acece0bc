// Atoms of a movie file: each is found and handed on as a part of the lent file.
#![tactic(auto)]

pub mod kinds;

ghost use Rattle.std.specs.Prelude.{◌≡◌, ◌≤◌, length};
ghost use Rattle.atoms.specs.Kinds.{container};
ghost use Rattle.atoms.specs.Atoms.{header_of, body_of, size_inside, size_top, size_in};
ghost use Rattle.atoms.specs.Pieces.{fitting};

use bigendian::{u32_at, u64_at};

// Whether an atom of that kind is a container in that parent.
pub fn is_container(parent: u32, kind: u32) -> bool
    ensures { result ≡ container parent kind }
{
    match kind {
        kinds::MOOV => parent == kinds::FILE,
        kinds::TRAK => parent == kinds::MOOV,
        kinds::EDTS | kinds::MDIA => parent == kinds::TRAK,
        kinds::MINF => parent == kinds::MDIA,
        kinds::STBL | kinds::DINF => parent == kinds::MINF,
        _ => false,
    }
}

// The length of an atom's header.
fn header(atom: &[u8]) -> usize
    ensures { result ≡ header_of atom.now }
{
    if u32_at(atom, 0) == 1 { 16 } else { 8 }
}

// What follows an atom's header.
pub fn body_of<'a>(atom: &'a [u8]) -> &'a [u8]
    ensures { result.now ≡ body_of atom.now }
{
    let h = header(atom);
    if atom.len() < h {
        &atom[..0]
    } else {
        &atom[h..]
    }
}

// The size z, if it is at least `least` and does not pass the end of s; else 0. It is compared whole, as 64 bits.
fn fit(least: u64, z: u64, s: &[u8]) -> usize
    ensures { result ≡ fitting least z s.now }
{
    if z < least {
        return 0;
    }
    if z <= s.len() as u64 { z as usize } else { 0 }
}

// The size of the atom that s begins with, inside an atom; 0 where s does not begin with a whole atom.
fn size_inside(s: &[u8]) -> usize
    ensures { result ≡ size_inside s.now }
{
    if s.len() < 8 {
        return 0;
    }
    fit(8, u32_at(s, 0) as u64, s)
}

// The same at top level.
fn size_top(s: &[u8]) -> usize
    ensures { result ≡ size_top s.now }
{
    if s.len() < 8 {
        return 0;
    }
    let z = u32_at(s, 0);
    if z == 0 {
        return s.len();
    }
    if z != 1 {
        return fit(8, z as u64, s);
    }
    if s.len() < 16 {
        return 0;
    }
    fit(16, u64_at(s, 8), s)
}

// The size of the atom that s begins with, in that parent; 0 where s does not begin with a whole atom. The second promise
// follows from the first: with it callers find the bounds of the parts that they take.
pub fn size_in(s: &[u8], parent: u32) -> usize
    ensures value { result ≡ size_in parent s.now }
    ensures upper_bound { result ≤ length s.now }
{
    if parent == kinds::FILE {
        size_top(s)
    } else {
        size_inside(s)
    }
}
