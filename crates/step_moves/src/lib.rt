// A step by the places in the tables: the sample that they stand before, and the places past it.
#![tactic(auto)]

ghost use Rattle.std.specs.Prelude.{◌≡◌, true, ◌<◌};
ghost use Rattle.words.specs.Words.{size_head};
ghost use Rattle.positions.specs.Moving.{may_move};
ghost use Rattle.step_moves.specs.Moves.{heads_of, moved, stepped_on};

use positions::dealt::{OffsetHead, offset_head};
use positions::moving::{Moving, pass_sample, read_entries};
use positions::run::shift_of;
use positions::sync::sync_step;
use questions::samples::{Sample, shifted};
use words::{SizeHead, size_by, size_head};

// What the heads of stsz and of the chunk offsets say, read once for many steps.
#[derive(Clone, Copy)]
pub struct Heads {
    pub sizes: SizeHead,
    pub offsets: OffsetHead,
}

pub fn heads_of(stsz: &[u8], offsets: &[u8]) -> Heads
    ensures { result ≡ heads_of stsz.now offsets.now }
{
    Heads {
        sizes: size_head(stsz),
        offsets: offset_head(offsets),
    }
}

// A sample, and the places past it.
#[derive(Clone, Copy)]
pub struct Stepped {
    pub sample: Sample,
    pub past: Moving,
}

// With the entries read.
fn moved(stsz: &[u8], stss: &[u8], sizes: SizeHead, m: Moving) -> Stepped
    requires { (sizes ≡ size_head stsz.now) × (may_move m ≡ true) × (m.index < 4294967295) }
    ensures { result ≡ moved stsz.now stss.now m }
{
    let index = m.index;
    let at = m.sync;
    let times = m.times;
    let shifts = m.shifts;
    let dealt = m.dealt;
    let cursor = dealt.cursor;
    let size = size_by(stsz, sizes, index);
    let place = sync_step(stss, at, index + 1);
    let sample = Sample {
        decode: m.decode,
        duration: times.each,
        composition: shifted(m.decode as u32, shift_of(shifts) as i32),
        sync: stss.is_empty() || place.listed,
        description: cursor.description,
        chunk: dealt.chunk as u64,
        offset: dealt.offset,
        size,
    };
    let past = pass_sample(m, size, place.at);
    Stepped { sample, past }
}

// A step by the six tables, of a track of that many samples: the sample and the places past it; none where they stand before none, or where a number could
// not grow. The old places are not asked after once new ones are made, so that a loop holds one of them.
pub fn step_in(
    stts: &[u8],
    ctts: &[u8],
    stsc: &[u8],
    stsz: &[u8],
    offsets: &[u8],
    stss: &[u8],
    heads: Heads,
    samples: u32,
    m: Moving,
) -> Option<Stepped>
    requires { heads ≡ heads_of stsz.now offsets.now }
    ensures { result ≡ stepped_on (record { stts = stts.now; ctts = ctts.now; stsc = stsc.now; stsz = stsz.now; offsets = offsets.now; stss = stss.now }) samples m }
{
    if samples <= m.index {
        return None;
    }
    let head = heads.offsets;
    let n = read_entries(stts, ctts, stsc, offsets, head, m)?;
    let sizes = heads.sizes;
    Some(moved(stsz, stss, sizes, n))
}
