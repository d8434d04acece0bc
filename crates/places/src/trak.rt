// The parts of a trak by which its track is judged, found in one walk over each container.
ghost use Rattle.std.specs.Prelude.{◌≡◌, false, ◌||◌, eqb};
ghost use Rattle.structure.specs.Profile.{of_version0};
ghost use Rattle.places.specs.Places.{part_in, AreParts, IsTrak, no_trak};
ghost use Rattle.places.specs.Finding.{with_one, FindsThree, NoHead, first_profile, with_head, FindsHeads};

use super::tables::{chosen, find_tables};
use super::{Part, body_part, child_part, first_part, part_of};
use atoms::{kinds, size_in};
use bigendian::{byte_at, u32_at};

// Each with its header, and empty where it is absent, as places in the body of the trak. The offsets are those of stco, and where there is none those of co64.
#[derive(Clone, Copy)]
pub struct Parts {
    pub tkhd: Part,
    pub profile: Part,
    pub mdhd: Part,
    pub hdlr: Part,
    pub elst: Part,
    pub dref: Part,
    pub stsd: Part,
    pub stts: Part,
    pub ctts: Part,
    pub stsc: Part,
    pub stsz: Part,
    pub offsets: Part,
    pub stss: Part,
}

// The body of a trak, as a place in what is lent, and its parts.
#[derive(Clone, Copy)]
pub struct Trak {
    pub body: Part,
    pub parts: Parts,
}

// The first atoms of three kinds.
#[derive(Clone, Copy)]
pub(crate) struct Three {
    pub a: Part,
    pub b: Part,
    pub c: Part,
}

fn is_one_of(kind: u32, a: u32, b: u32, c: u32) -> bool
    ensures { result ≡ (eqb kind a || (eqb kind b || eqb kind c)) }
{
    if kind == a {
        return true;
    }
    if kind == b {
        return true;
    }
    kind == c
}

fn with_one(f: Three, a: u32, b: u32, c: u32, kind: u32, next: Part) -> Three
    ensures { result ≡ with_one f a b c kind next }
{
    if !is_one_of(kind, a, b, c) {
        return f;
    }
    let x = f.a;
    let y = f.b;
    let z = f.c;
    Three {
        a: first_part(x, a, kind, next),
        b: first_part(y, b, kind, next),
        c: first_part(z, c, kind, next),
    }
}

// The first atoms of the kinds a, b and c in the body of that parent, in one walk over its atoms. Inside an atom a size is read in one way, whatever
// the parent: with a constant one the compiler leaves out the way of the top level.
fn find_three(lent: &[u8], p: Part, parent: u32, a: u32, b: u32, c: u32) -> Three
    requires { parent ≡ 0 → ⊥ }
    ensures { FindsThree lent.now parent a b c (part_in lent.now p) result }
{
    let body = part_of(lent, p);
    let mut t = body;
    let mut at = p.at;
    let none = Part { at: 0, len: 0 };
    let mut found = Three {
        a: none,
        b: none,
        c: none,
    };
    loop {
        let n = size_in(t, kinds::TRAK);
        if n < 8 {
            return found;
        }
        found = with_one(found, a, b, c, u32_at(t, 4), Part { at, len: n });
        at += n;
        t = &t[n..];
    }
}

// What the walk over a trak has found: the first atoms of three kinds, and the first prfl before the tkhd.
#[derive(Clone, Copy)]
pub(crate) struct Heads {
    pub tkhd: Part,
    pub mdia: Part,
    pub edts: Part,
    pub prfl: Part,
}

// Whether the walk looks for atoms of that kind. It passes over all others at once.
fn is_head(kind: u32) -> bool
    ensures { result ≡ false → NoHead kind }
{
    match kind {
        kinds::TKHD | kinds::MDIA | kinds::EDTS | kinds::PRFL => true,
        _ => false,
    }
}

// The first prfl before the tkhd.
fn first_profile(tkhd: Part, found: Part, kind: u32, next: Part) -> Part
    ensures { result ≡ first_profile tkhd found kind next }
{
    if tkhd.len != 0 {
        return found;
    }
    first_part(found, kinds::PRFL, kind, next)
}

fn with_head(f: Heads, kind: u32, next: Part) -> Heads
    ensures { result ≡ with_head f kind next }
{
    if !is_head(kind) {
        return f;
    }
    let tkhd = f.tkhd;
    let mdia = f.mdia;
    let edts = f.edts;
    let prfl = f.prfl;
    Heads {
        tkhd: first_part(tkhd, kinds::TKHD, kind, next),
        mdia: first_part(mdia, kinds::MDIA, kind, next),
        edts: first_part(edts, kinds::EDTS, kind, next),
        prfl: first_profile(tkhd, prfl, kind, next),
    }
}

// The same of the whole trak, in one walk over its atoms.
fn find_heads(trak: &[u8]) -> Heads
    ensures { FindsHeads trak.now result }
{
    let mut t = trak;
    let mut at: usize = 0;
    let none = Part { at: 0, len: 0 };
    let mut found = Heads {
        tkhd: none,
        mdia: none,
        edts: none,
        prfl: none,
    };
    loop {
        let n = size_in(t, kinds::TRAK);
        if n < 8 {
            return found;
        }
        found = with_head(found, u32_at(t, 4), Part { at, len: n });
        at += n;
        t = &t[n..];
    }
}

// A profile of version 0; of another version there is none.
pub(crate) fn of_version_0(trak: &[u8], prfl: Part) -> Part
    ensures { part_in trak.now result ≡ of_version0 (part_in trak.now prfl) }
{
    if byte_at(part_of(trak, prfl), 8) == 0 {
        return prfl;
    }
    Part { at: 0, len: 0 }
}

// The parts of the trak with that body.
fn parts_of(trak: &[u8]) -> Parts
    ensures { AreParts trak.now result }
{
    let heads = find_heads(trak);
    let tkhd = heads.tkhd;
    let mdia = heads.mdia;
    let edts = heads.edts;
    let prfl = heads.prfl;
    let in_mdia = find_three(
        trak,
        body_part(trak, mdia),
        kinds::MDIA,
        kinds::MDHD,
        kinds::HDLR,
        kinds::MINF,
    );
    let mdhd = in_mdia.a;
    let hdlr = in_mdia.b;
    let minf = in_mdia.c;
    let in_minf = find_three(
        trak,
        body_part(trak, minf),
        kinds::MINF,
        kinds::STBL,
        kinds::DINF,
        kinds::DINF,
    );
    let stbl = in_minf.a;
    let dinf = in_minf.b;
    let found = find_tables(trak, body_part(trak, stbl));
    let stsd = found.stsd;
    let stts = found.stts;
    let ctts = found.ctts;
    let stsc = found.stsc;
    let stsz = found.stsz;
    let stco = found.stco;
    let co64 = found.co64;
    let stss = found.stss;
    Parts {
        tkhd,
        profile: of_version_0(trak, prfl),
        mdhd,
        hdlr,
        elst: child_part(trak, body_part(trak, edts), kinds::EDTS, kinds::ELST, 0),
        dref: child_part(trak, body_part(trak, dinf), kinds::DINF, kinds::DREF, 0),
        stsd,
        stts,
        ctts,
        stsc,
        stsz,
        offsets: chosen(trak, stco, co64),
        stss,
    }
}

// No trak: all its parts are empty.
pub fn no_trak() -> Trak
    ensures { result ≡ no_trak }
{
    let none = Part { at: 0, len: 0 };
    let parts = Parts {
        tkhd: none,
        profile: none,
        mdhd: none,
        hdlr: none,
        elst: none,
        dref: none,
        stsd: none,
        stts: none,
        ctts: none,
        stsc: none,
        stsz: none,
        offsets: none,
        stss: none,
    };
    Trak { body: none, parts }
}

// The trak with the body at that place.
pub fn trak_of(lent: &[u8], body: Part) -> Trak
    ensures { IsTrak lent.now (part_in lent.now body) result }
{
    let parts = parts_of(part_of(lent, body));
    Trak { body, parts }
}
