// The stored profile of a movie or of one of its tracks, in lent 32-bit numbers.
#![tactic(auto)]

ghost use Rattle.std.specs.Prelude.{◌≡◌, [], ◌∷◌, ◌+◌, ◌*◌, ◌≤◌, ◌<◌, ◌^◌, length};
ghost use Rattle.std.proofs.lemmas.List.Edits.{sets};
ghost use Rattle.refusals.specs.Refusals.{code};
ghost use Rattle.profiles.specs.Asking.{AsksProfile};
ghost use Rattle.profiles.specs.Profiles.{kept_of, record_numbers, id_refusal, Profiles};

use bigendian::{after, u32_at};
use places::{Part, part_of, part_within};
use questions::Asked;
use refusals::Refusal;
use structure::source::Source;

// How many numbers the answer has for a record.
pub const RECORD: usize = 3;

// How many records of a profile are kept: those with a code other than 0.
fn kept_count(profile: &[u8]) -> usize
    ensures { result ≡ length (kept_of profile.now) }
{
    let mut t = after(profile, 16);
    let mut n = 0;
    while 16 <= t.len() {
        if u32_at(t, 8) != 0 {
            n += 1;
        }
        t = &t[16..];
    }
    n
}

// Puts the numbers of the record that a part begins with into the room, from the place `at` on.
fn put_record(t: &[u8], room: &mut [u32], at: usize)
    requires { at + 3 ≤ length room.old }
    ensures { room.new ≡ sets room.old at (record_numbers (t.now ∷ [])) }
{
    room[at] = u32_at(t, 4);
    room[at + 1] = u32_at(t, 8);
    room[at + 2] = u32_at(t, 12);
}

// Puts the records kept of a profile into the first places of the room.
fn put_records(profile: &[u8], room: &mut [u32])
    requires { 3 * length (kept_of profile.now) ≤ length room.old }
    ensures { room.new ≡ sets room.old 0 (record_numbers (kept_of profile.now)) }
{
    let mut t = after(profile, 16);
    let mut at = 0;
    while 16 <= t.len() {
        if u32_at(t, 8) != 0 {
            put_record(t, room, at);
            at += RECORD;
        }
        t = &t[16..];
    }
}

// The profile that is asked for; empty where there is none. ID 0 asks for the movie's own profile, and no track has it.
fn ask_profile(lent: &[u8], source: Source, id: u32) -> Result<Part, Refusal>
    ensures { AsksProfile lent.now source id result }
{
    if id == 0 {
        let movie = movie::judge(lent, source)?;
        let heads = movie.heads;
        return Ok(heads.profile);
    }
    let asked = Asked::of(lent, source, id)?;
    let trak = asked.trak;
    let parts = trak.parts;
    Ok(part_within(lent, trak.body, parts.profile))
}

// The refusal before the room is looked at.
pub fn id_refusal(lent: &[u8], source: Source, id: u32) -> Result<(), Refusal>
    ensures { code result ≡ id_refusal lent.now source id }
{
    ask_profile(lent, source, id)?;
    Ok(())
}

// The stored profile of a track, or for ID 0 of the movie: three numbers for each record kept, in the first places of the room; answers how many
// records. A refusal leaves the room as it is.
pub fn stored_profile(
    lent: &[u8],
    source: Source,
    id: u32,
    room: &mut [u32],
) -> Result<usize, Refusal>
    ensures { Profiles lent.now source id room.old result room.new }
{
    let part = ask_profile(lent, source, id)?;
    let profile = part_of(lent, part);
    let n = kept_count(profile);
    if room.len() / RECORD < n {
        return Err(Refusal::NoRoom);
    }
    put_records(profile, room);
    Ok(n)
}
