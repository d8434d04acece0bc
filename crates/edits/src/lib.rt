// Edit lists, read as they stand in the file: their total, whether refusal 13 applies, and where a movie time falls in the
// media. `scale` is the media's time scale and `movie` the movie's; `total` is the total of the sample durations.
#![tactic(auto)]

ghost use Rattle.std.specs.Prelude.{◌≡◌, ◌+◌, ◌-◌, ◌≤◌, ◌<◌, ◌^◌};
ghost use Rattle.std.specs.Int.Signed.{mag};
ghost use Rattle.lists.specs.Totals.{total_of};
ghost use Rattle.edits.specs.Edits.{edit_of, edit_total, start_of, in_media, edit_ok, edits_ok, placed, shown_at, media_at};

use bigendian::{after, i32_at, u32_at};

// A time of the movie, in the movie's scale.
#[derive(Clone, Copy)]
pub struct MovieTime(pub u32);

// A time of the media, in the track's own scale.
#[derive(Clone, Copy)]
pub struct MediaTime(pub u32);

// Where a movie time falls in the media.
#[derive(Clone, Copy)]
pub enum Mapped {
    Media(MediaTime),
    Nothing,
    Outside,
}

// An entry of an edit list. The media time is signed.
#[derive(Clone, Copy)]
pub struct Edit {
    pub duration: u32,
    pub media: i64,
    pub rate: u32,
}

// What a signed media time stands for: a place of the media, nothing (-1), or no right value.
#[derive(Clone, Copy)]
pub enum EditStart {
    From(u64),
    Empty,
    Wrong,
}

// The only place that tests a sign.
pub fn start_of(media: i64) -> EditStart
    ensures { result ≡ start_of media }
{
    if media >= 0 {
        return EditStart::From(media as u64);
    }
    if media == -1 {
        return EditStart::Empty;
    }
    EditStart::Wrong
}

// The first entry of a part.
pub fn edit_at(t: &[u8]) -> Edit
    ensures { (result ≡ edit_of t.now) × (mag result.media < 2 ^ 31) }
{
    Edit {
        duration: u32_at(t, 0),
        media: i32_at(t, 4),
        rate: u32_at(t, 8),
    }
}

// The sum of the durations of all entries, where it is at most 4,294,967,295.
pub fn edits_total(elst: &[u8]) -> Option<u32>
    ensures { result ≡ total_of (edit_total elst.now) }
{
    let mut total: u64 = 0;
    for entry in after(elst, 16).chunks_exact(12) {
        total += u32_at(entry, 0) as u64;
        if 4294967295 < total {
            return None;
        }
    }
    Some(total as u32)
}

// A time of the movie's scale in the media's, rounded down; 0 where the movie's scale is 0.
fn scaled(t: u32, scale: u32, movie: u32) -> u64
    ensures { (result ≡ in_media scale movie t) × (result ≤ 18446744065119617025) }
{
    if movie == 0 {
        return 0;
    }
    t as u64 * scale as u64 / movie as u64
}

// The last place that an entry of duration d shows, from a media time on: that of movie time d - 1 in the entry.
pub fn last_place(m: u64, d: u32, scale: u32, movie: u32) -> MediaTime
    requires { (0 < d) × (m + in_media scale movie (d - 1) < 4294967296) }
    ensures { result.0 ≡ m + in_media scale movie (d - 1) }
{
    let place = m + scaled(d - 1, scale, movie);
    MediaTime(place as u32)
}

// Whether an entry is right: its duration, its rate, its media time and the last place that it shows.
fn edit_ok(e: Edit, scale: u32, movie: u32, total: u32) -> bool
    requires { mag e.media < 2 ^ 31 }
    ensures { result ≡ edit_ok scale movie total e }
{
    let d = e.duration;
    let rate = e.rate;
    if d == 0 {
        return false;
    }
    if rate != 65536 {
        return false;
    }
    let media = e.media;
    let p = start_of(media);
    match p {
        EditStart::From(m) => {
            let last = m + scaled(d - 1, scale, movie);
            last < total as u64
        }
        EditStart::Empty => true,
        EditStart::Wrong => false,
    }
}

// Whether refusal 13 does not apply: there is no edit list, or it has an entry and each is right.
pub fn edits_ok(elst: &[u8], scale: u32, movie: u32, total: u32) -> bool
    ensures { result ≡ edits_ok scale movie total elst.now }
{
    if elst.len() == 0 {
        return true;
    }
    let part = after(elst, 16);
    if part.len() < 12 {
        return false;
    }
    for entry in part.chunks_exact(12) {
        let e = edit_at(entry);
        if !edit_ok(e, scale, movie, total) {
            return false;
        }
    }
    true
}

// A place of the media, or that it is not below the total.
fn within(place: u64, total: u32) -> Mapped
    ensures { result ≡ placed total place }
{
    if place < total as u64 {
        return Mapped::Media(MediaTime(place as u32));
    }
    Mapped::Outside
}

// What an entry with a media time shows, a time t after its start.
fn shown(media: i64, t: u32, scale: u32, movie: u32, total: u32) -> Mapped
    requires { mag media < 2 ^ 31 }
    ensures { result ≡ shown_at scale movie total t (start_of media) }
{
    let p = start_of(media);
    match p {
        EditStart::From(m) => {
            let place = m + scaled(t, scale, movie);
            within(place, total)
        }
        EditStart::Empty => Mapped::Nothing,
        EditStart::Wrong => Mapped::Outside,
    }
}

// Where a movie time falls in the media.
pub fn media_at(elst: &[u8], scale: u32, movie: u32, total: u32, t: MovieTime) -> Mapped
    ensures { result ≡ media_at scale movie total elst.now t }
{
    let time = t.0;
    if elst.len() == 0 {
        return shown(0, time, scale, movie, total);
    }
    let mut rest = time;
    for entry in after(elst, 16).chunks_exact(12) {
        let e = edit_at(entry);
        let d = e.duration;
        if rest < d {
            let media = e.media;
            return shown(media, rest, scale, movie, total);
        }
        rest -= d;
    }
    Mapped::Outside
}
