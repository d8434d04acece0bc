// The sample tables of a track.
ghost use Rattle.std.specs.Prelude.{◌≡◌, false};
ghost use Rattle.places.specs.Places.{part_in, AreTables, AreParts};
ghost use Rattle.places.specs.Finding.{NoTable, with_atom, no_tables, offsets_in, Finds};

use super::trak::Parts;
use super::{Part, first_part, part_of, part_within};
use atoms::{kinds, size_in};
use bigendian::u32_at;

// The part of each, its header included; empty where it is absent. The offsets are those of stco, and where there is none those of co64.
#[derive(Clone, Copy)]
pub struct Tables {
    pub stts: Part,
    pub ctts: Part,
    pub stsc: Part,
    pub stsz: Part,
    pub offsets: Part,
    pub stss: Part,
}

// Those found so far in an stbl, and its descriptions.
#[derive(Clone, Copy)]
pub(crate) struct Found {
    pub stsd: Part,
    pub stts: Part,
    pub ctts: Part,
    pub stsc: Part,
    pub stsz: Part,
    pub stco: Part,
    pub co64: Part,
    pub stss: Part,
}

fn none_found() -> Found
    ensures { result ≡ no_tables }
{
    let none = Part { at: 0, len: 0 };
    Found {
        stsd: none,
        stts: none,
        ctts: none,
        stsc: none,
        stsz: none,
        stco: none,
        co64: none,
        stss: none,
    }
}

// Whether a table is of that kind. The walk passes over all other atoms at once.
fn is_table(kind: u32) -> bool
    ensures { result ≡ false → NoTable kind }
{
    match kind {
        kinds::STSD | kinds::STTS | kinds::CTTS | kinds::STSZ => true,
        kinds::STSC | kinds::STCO | kinds::CO64 | kinds::STSS => true,
        _ => false,
    }
}

fn with_atom(f: Found, kind: u32, next: Part) -> Found
    ensures { result ≡ with_atom f kind next }
{
    if !is_table(kind) {
        return f;
    }
    let stsd = f.stsd;
    let stts = f.stts;
    let ctts = f.ctts;
    let stsc = f.stsc;
    let stsz = f.stsz;
    let stco = f.stco;
    let co64 = f.co64;
    let stss = f.stss;
    Found {
        stsd: first_part(stsd, kinds::STSD, kind, next),
        stts: first_part(stts, kinds::STTS, kind, next),
        ctts: first_part(ctts, kinds::CTTS, kind, next),
        stsc: first_part(stsc, kinds::STSC, kind, next),
        stsz: first_part(stsz, kinds::STSZ, kind, next),
        stco: first_part(stco, kinds::STCO, kind, next),
        co64: first_part(co64, kinds::CO64, kind, next),
        stss: first_part(stss, kinds::STSS, kind, next),
    }
}

// The tables in the body of an stbl, in one walk over its atoms.
pub(crate) fn find_tables(lent: &[u8], stbl: Part) -> Found
    ensures { Finds lent.now (part_in lent.now stbl) result }
{
    let body = part_of(lent, stbl);
    let mut t = body;
    let mut at = stbl.at;
    let mut found = none_found();
    loop {
        let n = size_in(t, kinds::STBL);
        if n < 8 {
            return found;
        }
        found = with_atom(found, u32_at(t, 4), Part { at, len: n });
        at += n;
        t = &t[n..];
    }
}

// The table of chunk offsets: stco, and where there is none co64.
pub(crate) fn chosen(lent: &[u8], stco: Part, co64: Part) -> Part
    ensures { result ≡ offsets_in lent.now stco co64 }
{
    if part_of(lent, stco).len() == 0 {
        return co64;
    }
    stco
}

// The sample tables of a track, from the place of its trak's body and its parts.
pub fn tables_in(lent: &[u8], trak: Part, p: Parts) -> Tables
    requires { AreParts (part_in lent.now trak) p }
    ensures { AreTables lent.now (part_in lent.now trak) result }
{
    Tables {
        stts: part_within(lent, trak, p.stts),
        ctts: part_within(lent, trak, p.ctts),
        stsc: part_within(lent, trak, p.stsc),
        stsz: part_within(lent, trak, p.stsz),
        offsets: part_within(lent, trak, p.offsets),
        stss: part_within(lent, trak, p.stss),
    }
}
