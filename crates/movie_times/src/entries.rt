// The entries of a track's edit list, in lent signed numbers.
ghost use Rattle.std.specs.Prelude.{◌≡◌, [], ◌∷◌, ◌+◌, ◌*◌, ◌≤◌, length};
ghost use Rattle.std.proofs.lemmas.List.Edits.{sets};
ghost use Rattle.edits.specs.Edits.{edit_of, edits_in};
ghost use Rattle.movie_times.specs.Entries.{edit_numbers, StoresEdits};

use bigendian::{after, i32_at, u32_at};
use places::part_of;
use questions::Asked;
use refusals::Refusal;
use structure::source::Source;

// How many numbers the answer has for an entry.
pub const ENTRY: usize = 3;

// Puts the duration, media time and rate of the entry that a part begins with into the room, from the place `at` on.
fn put_edit(t: &[u8], room: &mut [i64], at: usize)
    requires { at + 3 ≤ length room.old }
    ensures { room.new ≡ sets room.old at (edit_numbers (edit_of t.now ∷ [])) }
{
    let duration = u32_at(t, 0) as i64;
    let media = i32_at(t, 4);
    let rate = u32_at(t, 8) as i64;
    room[at] = duration;
    room[at + 1] = media;
    room[at + 2] = rate;
}

// Puts the entries that stand one after the other in a part into the first places of the room.
fn put_edits(part: &[u8], room: &mut [i64])
    requires { 3 * length (edits_in part.now) ≤ length room.old }
    ensures { room.new ≡ sets room.old 0 (edit_numbers (edits_in part.now)) }
{
    let mut t = part;
    let mut at = 0;
    while 12 <= t.len() {
        put_edit(t, room, at);
        at += ENTRY;
        t = &t[12..];
    }
}

// The edit list of a track: duration, media time (-1 where nothing is shown) and rate of each entry, in the first places of the room; answers
// how many entries. A refusal leaves the room as it is.
pub fn stored_edits(
    lent: &[u8],
    source: Source,
    id: u32,
    room: &mut [i64],
) -> Result<usize, Refusal>
    ensures { StoresEdits lent.now source id room.old result room.new }
{
    let asked = Asked::of(lent, source, id)?;
    let trak = asked.trak;
    let p = trak.parts;
    let part = after(part_of(part_of(lent, trak.body), p.elst), 16);
    let n = part.len() / 12;
    if room.len() / ENTRY < n {
        return Err(Refusal::NoRoom);
    }
    put_edits(part, room);
    Ok(n)
}
