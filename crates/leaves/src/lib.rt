// The read leaves of a movie: which atoms they are, their version and their size.
#![tactic(auto)]

ghost use Rattle.std.specs.Prelude.{◌≡◌, ◌≤◌, length};
ghost use Rattle.leaves.specs.Leaves.{Size, Version, form_of, holds_entries, size_entry, filled_with, sized_entries, size_ok, leaf_ok};

use atoms::kinds;
use bigendian::{byte_at, u32_at};

// How an atom's size is judged: not at all, an atom that is skipped; a number of bytes; 16 bytes and entries of one width;
// stsz; 16 bytes and entries that state their own size, at least so many bytes each.
#[derive(Clone, Copy, Debug, PartialEq, Eq)]
pub enum Form {
    Skipped,
    Exactly(usize),
    AtLeast(usize),
    Entries(u32),
    Sizes,
    Sized(usize),
}

// The form of an atom of that kind in that parent; `wide` is true in a moov alone, where co64 is read.
#[tactic(auto, unfolding(crate::specs::Leaves::form_of))]
pub fn form_of(parent: u32, kind: u32, wide: bool) -> Form
    ensures { result ≡ form_of wide parent kind }
{
    match (parent, kind) {
        (kinds::MOOV, kinds::MVHD) => Form::Exactly(108),
        (kinds::TRAK, kinds::TKHD) => Form::Exactly(92),
        (kinds::MDIA, kinds::MDHD) => Form::Exactly(32),
        (kinds::MDIA, kinds::HDLR) => Form::AtLeast(32),
        (kinds::EDTS, kinds::ELST) => Form::Entries(12),
        (kinds::STBL, kinds::STTS | kinds::CTTS) => Form::Entries(8),
        (kinds::STBL, kinds::STSC) => Form::Entries(12),
        (kinds::STBL, kinds::STSZ) => Form::Sizes,
        (kinds::STBL, kinds::STCO | kinds::STSS) => Form::Entries(4),
        (kinds::STBL, kinds::CO64) if wide => Form::Entries(8),
        (kinds::STBL, kinds::STSD) => Form::Sized(16),
        (kinds::DINF, kinds::DREF) => Form::Sized(12),
        _ => Form::Skipped,
    }
}

// Whether the first byte of a read leaf's body is 0, or the body is empty.
#[tactic(auto, unfolding(crate::specs::Leaves::leaf_ok, crate::specs::Leaves::version_ok, crate::specs::Leaves::skipped))]
pub fn version_ok(f: Form, atom: &[u8]) -> bool
    ensures { result ≡ leaf_ok Version f atom.now }
{
    match f {
        Form::Skipped => true,
        _ => byte_at(atom, 8) == 0,
    }
}

// Whether an atom is a head of that many bytes and n entries of that width. The sum is one of 64 bits, so it cannot wrap.
pub fn holds_entries(atom: &[u8], head: u32, width: u32, n: u32) -> bool
    ensures { result ≡ holds_entries head width n atom.now }
{
    atom.len() as u64 == head as u64 + width as u64 * n as u64
}

// The size of the entry that s begins with; 0 where it is below `least` or passes the end.
#[tactic(auto, unfolding(crate::specs::Leaves::size_entry, atoms::specs::Pieces::fitting))]
pub fn entry_size(s: &[u8], least: usize) -> usize
    ensures value { result ≡ size_entry least s.now }
    ensures upper_bound { result ≤ length s.now }
{
    let z = u32_at(s, 0) as usize;
    if z < least {
        return 0;
    }
    if z <= s.len() { z } else { 0 }
}

// Whether n entries that state their own size, at least so many bytes each, fill s exactly.
fn filled_with(s: &[u8], least: usize, n: u32) -> bool
    ensures { result ≡ filled_with (size_entry least) n s.now }
{
    let mut t = s;
    let mut more = n;
    while t.len() > 0 {
        let z = entry_size(t, least);
        if z == 0 {
            return false;
        }
        if more == 0 {
            return false;
        }
        more -= 1;
        t = &t[z..];
    }
    more == 0
}

// Whether the entries that an atom counts, at least so many bytes each, fill it exactly after its first 16 bytes.
#[tactic(auto, unfolding(crate::specs::Leaves::sized_entries))]
pub fn has_sized_entries(atom: &[u8], least: usize) -> bool
    ensures { result ≡ sized_entries least atom.now }
{
    if atom.len() < 16 {
        return false;
    }
    let n = u32_at(atom, 12);
    filled_with(&atom[16..], least, n)
}

// The rule of stsz: the sizes stand there only if the common size is 0.
#[tactic(auto, unfolding(crate::specs::Leaves::size_ok))]
fn sizes_ok(atom: &[u8]) -> bool
    ensures { result ≡ size_ok Form.Sizes atom.now }
{
    if u32_at(atom, 12) == 0 {
        holds_entries(atom, 20, 4, u32_at(atom, 16))
    } else {
        atom.len() == 20
    }
}

// Whether an atom of that form has its size.
#[tactic(auto, unfolding(crate::specs::Leaves::leaf_ok, crate::specs::Leaves::size_ok))]
pub fn size_ok(f: Form, atom: &[u8]) -> bool
    ensures { result ≡ leaf_ok Size f atom.now }
{
    match f {
        Form::Skipped => true,
        Form::Exactly(n) => atom.len() == n,
        Form::AtLeast(n) => n <= atom.len(),
        Form::Entries(w) => holds_entries(atom, 16, w, u32_at(atom, 12)),
        Form::Sizes => sizes_ok(atom),
        Form::Sized(n) => has_sized_entries(atom, n),
    }
}
