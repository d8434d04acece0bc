// Which atoms a body must have, and which at most once: refusal 3. `wide` is true of a moov alone, in which co64 may stand for stco.
#![tactic(auto)]

ghost use Rattle.std.specs.Prelude.{◌≡◌, ◌&&◌};
ghost use Rattle.presence.specs.Counts.{one_more, nothing_counted, with_kind, offsets_by, tables_by, present_by};

use atoms::kinds;

// How many atoms of each kind there are among those seen of a body; 2 stands for two or more.
#[derive(Clone, Copy, Debug, PartialEq, Eq)]
pub struct Counts {
    pub moov: u8,
    pub mvhd: u8,
    pub tkhd: u8,
    pub edts: u8,
    pub elst: u8,
    pub mdia: u8,
    pub mdhd: u8,
    pub hdlr: u8,
    pub minf: u8,
    pub dinf: u8,
    pub dref: u8,
    pub stbl: u8,
    pub stsd: u8,
    pub stts: u8,
    pub ctts: u8,
    pub stsc: u8,
    pub stsz: u8,
    pub stco: u8,
    pub co64: u8,
    pub stss: u8,
}

pub fn nothing_counted() -> Counts
    ensures { result ≡ nothing_counted }
{
    Counts {
        moov: 0,
        mvhd: 0,
        tkhd: 0,
        edts: 0,
        elst: 0,
        mdia: 0,
        mdhd: 0,
        hdlr: 0,
        minf: 0,
        dinf: 0,
        dref: 0,
        stbl: 0,
        stsd: 0,
        stts: 0,
        ctts: 0,
        stsc: 0,
        stsz: 0,
        stco: 0,
        co64: 0,
        stss: 0,
    }
}

#[tactic(auto, unfolding(crate::specs::Counts::one_more))]
fn one_more(n: u8) -> u8
    ensures { result ≡ one_more n }
{
    if n == 0 { 1 } else { 2 }
}

// The counts with one atom of that kind more.
#[tactic(auto, unfolding(crate::specs::Counts::with_kind, crate::specs::Counts::bump))]
pub fn with_kind(counts: Counts, kind: u32) -> Counts
    ensures { result ≡ with_kind counts kind }
{
    let mut c = counts;
    match kind {
        kinds::MOOV => c.moov = one_more(c.moov),
        kinds::MVHD => c.mvhd = one_more(c.mvhd),
        kinds::TKHD => c.tkhd = one_more(c.tkhd),
        kinds::EDTS => c.edts = one_more(c.edts),
        kinds::ELST => c.elst = one_more(c.elst),
        kinds::MDIA => c.mdia = one_more(c.mdia),
        kinds::MDHD => c.mdhd = one_more(c.mdhd),
        kinds::HDLR => c.hdlr = one_more(c.hdlr),
        kinds::MINF => c.minf = one_more(c.minf),
        kinds::DINF => c.dinf = one_more(c.dinf),
        kinds::DREF => c.dref = one_more(c.dref),
        kinds::STBL => c.stbl = one_more(c.stbl),
        kinds::STSD => c.stsd = one_more(c.stsd),
        kinds::STTS => c.stts = one_more(c.stts),
        kinds::CTTS => c.ctts = one_more(c.ctts),
        kinds::STSC => c.stsc = one_more(c.stsc),
        kinds::STSZ => c.stsz = one_more(c.stsz),
        kinds::STCO => c.stco = one_more(c.stco),
        kinds::CO64 => c.co64 = one_more(c.co64),
        kinds::STSS => c.stss = one_more(c.stss),
        _ => {}
    }
    c
}

// `&&` of two answers that are both had.
pub fn both(a: bool, b: bool) -> bool
    ensures { result ≡ (a && b) }
{
    a && b
}

// Whether the body of a parent, all its atoms counted, has the atoms that it must have, and none too often.
#[tactic(auto, unfolding(crate::specs::Counts::present_by))]
pub fn has_its_atoms(c: Counts, parent: u32, wide: bool) -> bool
    ensures { result ≡ present_by wide parent c }
{
    match parent {
        kinds::FILE => c.moov == 1,
        kinds::MOOV => c.mvhd == 1,
        kinds::TRAK => c.tkhd == 1 && c.mdia == 1 && c.edts <= 1,
        kinds::EDTS => c.elst == 1,
        kinds::MDIA => c.mdhd == 1 && c.hdlr == 1 && c.minf == 1,
        kinds::MINF => c.stbl == 1 && c.dinf == 1,
        kinds::STBL => has_tables(c, wide),
        kinds::DINF => c.dref == 1,
        _ => true,
    }
}

// Whether stbl has one table of chunk offsets: stco, or where co64 may stand for it one of the two.
#[tactic(auto, unfolding(crate::specs::Counts::offsets_by))]
fn has_offsets(stco: u8, co64: u8, wide: bool) -> bool
    ensures { result ≡ offsets_by wide stco co64 }
{
    if wide {
        u16::from(stco) + u16::from(co64) == 1
    } else {
        stco == 1
    }
}

// The same of stbl.
#[tactic(auto, unfolding(crate::specs::Counts::tables_by))]
fn has_tables(c: Counts, wide: bool) -> bool
    ensures { result ≡ tables_by wide c }
{
    c.stsd == 1
        && c.stts == 1
        && c.stsc == 1
        && c.stsz == 1
        && has_offsets(c.stco, c.co64, wide)
        && c.ctts <= 1
        && c.stss <= 1
}
