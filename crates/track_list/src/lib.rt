// The list of a movie's tracks, in lent 32-bit numbers.
#![tactic(auto)]

ghost use Rattle.std.specs.Prelude.{◌≡◌, ◌+◌, ◌*◌, ◌≤◌, ◌<◌, length};
ghost use Rattle.std.proofs.lemmas.List.Edits.{sets};
ghost use Rattle.structure.specs.Movie.{moov_of, tracks_of};
ghost use Rattle.places.specs.Places.{AreParts};
ghost use Rattle.movie.specs.Traks.{FewTraks};
ghost use Rattle.track.specs.Refusals.{total_in};
ghost use Rattle.track_list.specs.TrackList.{line_of, lines_of, Lists};
ghost use Rattle.track_list.specs.Lines.{fields, TotalsFit};

use bigendian::u32_at;
use places::moov::{Traks, trak_at};
use places::part_of;
use places::trak::Parts;
use refusals::Refusal;
use structure::source::Source;
use track::media_total;

// How many numbers the list has for a track.
pub const LINE: usize = 8;

// What the list says of a track.
#[derive(Clone, Copy)]
pub struct Line {
    pub id: u32,
    pub subtype: u32,
    pub scale: u32,
    pub total: u32,
    pub samples: u32,
    pub chunks: u32,
    pub edits: u32,
    pub stored: u32,
}

fn line_of(trak: &[u8], p: Parts) -> Line
    requires { (AreParts trak.now p) × (total_in trak.now < 4294967296) }
    ensures { fields result ≡ line_of trak.now }
{
    let mdhd = part_of(trak, p.mdhd);
    Line {
        id: u32_at(part_of(trak, p.tkhd), 20),
        subtype: u32_at(part_of(trak, p.hdlr), 16),
        scale: u32_at(mdhd, 20),
        total: media_total(trak, p),
        samples: u32_at(part_of(trak, p.stsz), 16),
        chunks: u32_at(part_of(trak, p.offsets), 12),
        edits: u32_at(part_of(trak, p.elst), 12),
        stored: u32_at(mdhd, 24),
    }
}

// Puts a track's eight numbers into the room, from the place `at` on.
fn put_line(line: Line, room: &mut [u32], at: usize)
    requires { at + 8 ≤ length room.old }
    ensures { room.new ≡ sets room.old at (fields line) }
{
    room[at] = line.id;
    room[at + 1] = line.subtype;
    room[at + 2] = line.scale;
    room[at + 3] = line.total;
    room[at + 4] = line.samples;
    room[at + 5] = line.chunks;
    room[at + 6] = line.edits;
    room[at + 7] = line.stored;
}

// Puts the list of a movie's tracks, from its traks, into the first places of the room.
fn put_lines(lent: &[u8], traks: Traks, room: &mut [u32])
    requires { FewTraks lent.now (tracks_of (moov_of lent.now)) traks × TotalsFit (tracks_of (moov_of lent.now)) × (8 * length (tracks_of (moov_of lent.now)) ≤ length room.old) }
    ensures { room.new ≡ sets room.old 0 (lines_of (tracks_of (moov_of lent.now))) }
{
    let count = traks.count;
    let mut i: usize = 0;
    while i < count {
        let trak = trak_at(traks, i);
        let line = line_of(part_of(lent, trak.body), trak.parts);
        put_line(line, room, i * LINE);
        i += 1;
    }
}

// Lists the tracks of a film: eight numbers for each, in the first places of the room; how many tracks it has. A refusal leaves the room as it is.
pub fn track_list(lent: &[u8], source: Source, room: &mut [u32]) -> Result<usize, Refusal>
    ensures { Lists lent.now source room.old result room.new }
{
    let movie = movie::judge(lent, source)?;
    let traks = movie.traks;
    let n = traks.count;
    if room.len() < LINE * n {
        return Err(Refusal::NoRoom);
    }
    put_lines(lent, traks, room);
    Ok(n)
}
