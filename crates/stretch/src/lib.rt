// The byte ranges of a stretch of media time, in lent numbers of 32 or 64 bits.
#![tactic(auto)]

pub mod tables;

ghost use Rattle.std.specs.Prelude.{◌≡◌, ◌<◌, map};
ghost use Rattle.refusals.specs.Refusals.{code};
ghost use Rattle.structure.specs.Source.{whole_file, length_of};
ghost use Rattle.questions.specs.Asked.{ask_refusal};
ghost use Rattle.stretch.specs.Spans.{SpanAsked, span_of_ask};
ghost use Rattle.stretch.specs.Stretches.{span_refusal, Stretches};

use bigendian::u32_at;
use edits::MediaTime;
use places::part_of;
use places::trak::Trak;
use questions::Asked;
use refusals::Refusal;
use room_pairs::RoomNumber;
use spans::{Span, has_room, put_in, span_of};
use structure::source::Source;

// The trak of the track that is asked, and the samples of the stretch.
#[derive(Clone, Copy)]
pub struct Stretched {
    pub trak: Trak,
    pub span: Span,
}

// The samples of the stretch from a to b of the track that is asked.
pub fn span_of_ask(lent: &[u8], asked: Asked, a: MediaTime, b: MediaTime) -> Result<Span, Refusal>
    ensures { result ≡ span_of_ask lent.now asked a.0 b.0 }
{
    let body = part_of(lent, asked.trak.body);
    let p = asked.trak.parts;
    let samples = u32_at(part_of(body, p.stsz), 16);
    span_of(part_of(body, p.stts), samples, a, b)
}

// What the stretch from a to b of a track asks for.
pub fn span_asked(
    lent: &[u8],
    source: Source,
    id: u32,
    a: MediaTime,
    b: MediaTime,
) -> Result<Stretched, Refusal>
    ensures { SpanAsked lent.now source id a.0 b.0 result }
{
    let asked = Asked::of(lent, source, id)?;
    let span = span_of_ask(lent, asked, a, b)?;
    Ok(Stretched {
        trak: asked.trak,
        span,
    })
}

// The refusal before the room is looked at: the film's, 14, or 15.
pub fn span_refusal(
    lent: &[u8],
    source: Source,
    id: u32,
    a: MediaTime,
    b: MediaTime,
) -> Result<(), Refusal>
    ensures { code result ≡ span_refusal lent.now source id a b }
{
    span_asked(lent, source, id, a, b)?;
    Ok(())
}

// How many pairs a stretch has, and the total of their bytes.
#[derive(Clone, Copy)]
pub struct StretchTotals {
    pub pairs: usize,
    pub bytes: u64,
}

// The stretch of a track from a to b: a pair (offset, length) for each chunk touched, in the first places of the room, whose numbers count the bytes of the
// file. A refusal leaves the room as it is.
fn stretch_from<N: RoomNumber>(
    lent: &[u8],
    source: Source,
    id: u32,
    a: MediaTime,
    b: MediaTime,
    room: &mut [N],
) -> Result<StretchTotals, Refusal>
    requires { ask_refusal lent.now source id ≡ 0 → length_of source lent.now < N.limit }
    ensures { Stretches lent.now source id a b (map N.value room.old) result (map N.value room.new) }
{
    let found = span_asked(lent, source, id, a, b)?;
    let trak = found.trak;
    let span = found.span;
    let body = part_of(lent, trak.body);
    let p = trak.parts;
    if !has_room(body, p, span, room.len()) {
        return Err(Refusal::NoRoom);
    }
    let q = put_in(body, p, span, room);
    Ok(StretchTotals {
        pairs: q.pairs,
        bytes: q.bytes,
    })
}

// That of a whole file.
pub fn stretch_of(
    file: &[u8],
    id: u32,
    a: MediaTime,
    b: MediaTime,
    room: &mut [u32],
) -> Result<StretchTotals, Refusal>
    ensures { Stretches file.now whole_file id a b room.old result room.new }
{
    stretch_from(file, Source::whole(), id, a, b, room)
}

// That of any film, lent whole or its moov alone, in 64-bit numbers: the file may be longer than 32 bits count.
pub fn stretch_wide(
    lent: &[u8],
    source: Source,
    id: u32,
    a: MediaTime,
    b: MediaTime,
    room: &mut [u64],
) -> Result<StretchTotals, Refusal>
    ensures { Stretches lent.now source id a b room.old result room.new }
{
    stretch_from(lent, source, id, a, b, room)
}
