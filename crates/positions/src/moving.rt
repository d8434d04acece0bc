// The places in all tables of a track before one of its samples.
ghost use Rattle.std.specs.Prelude.{◌≡◌, true, ◌<◌};
ghost use Rattle.positions.specs.Dealing.{offset_head};
ghost use Rattle.positions.specs.Moving.{readied_moving, to_move, may_move, past_moving};

use super::dealt::{Dealt, OffsetHead, dealt_pass, dealt_ready};
use runs::cursor::{RunCursor, run_pass, run_ready};

// The sample's index and decode time, and its places in stts, ctts, the chunks and stss.
#[derive(Clone, Copy)]
pub struct Moving {
    pub index: u32,
    pub decode: u64,
    pub times: RunCursor,
    pub shifts: RunCursor,
    pub dealt: Dealt,
    pub sync: usize,
}

impl Moving {
    // Document 01: "header and entry sizes as associated constants": the head of stss, an entry of stts or ctts, and one of stss.
    pub const HEAD: usize = words::HEAD;

    pub const RUN: usize = RunCursor::ENTRY;

    pub const WORD: usize = words::WORD;
}

// The places with the entries read that the sample needs; none where no sample lies ahead, or where its offset or decode time could not grow. Of a position
// that stands in its own film that is so past the last sample alone.
pub fn read_entries(
    stts: &[u8],
    ctts: &[u8],
    stsc: &[u8],
    offsets: &[u8],
    head: OffsetHead,
    m: Moving,
) -> Option<Moving>
    requires { head ≡ offset_head offsets.now }
    ensures { result ≡ to_move (readied_moving stts.now ctts.now stsc.now offsets.now m) }
{
    if 4294967295 < m.decode {
        return None;
    }
    let d = m.dealt;
    let dealt = dealt_ready(stsc, offsets, head, d)?;
    let t = m.times;
    let c = m.shifts;
    let times = run_ready(stts, t);
    let shifts = run_ready(ctts, c);
    Some(Moving {
        index: m.index,
        decode: m.decode,
        times,
        shifts,
        dealt,
        sync: m.sync,
    })
}

// Past the sample, which has that size; `sync` is the place in stss past it.
pub fn pass_sample(m: Moving, size: u32, sync: usize) -> Moving
    requires { (may_move m ≡ true) × (m.index < 4294967295) }
    ensures { result ≡ past_moving size sync m }
{
    let t = m.times;
    let c = m.shifts;
    let d = m.dealt;
    let times = run_pass(t, 1);
    let shifts = run_pass(c, 1);
    let dealt = dealt_pass(d, size);
    Moving {
        index: m.index + 1,
        decode: m.decode + t.each as u64,
        times,
        shifts,
        dealt,
        sync,
    }
}
