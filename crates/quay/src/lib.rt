// Whether a film keeps the quay film profile: the lowest rule that it breaks, and the first track that breaks it.
#![tactic(auto)]

ghost use Rattle.std.specs.Prelude.{◌≡◌, cond, eqb};
ghost use Rattle.structure.specs.Track.{subtype_of};
ghost use Rattle.structure.specs.Movie.{moov_of, tracks_of};
ghost use Rattle.places.specs.Places.{part_in, AreParts};
ghost use Rattle.movie.specs.Traks.{FewTraks};
ghost use Rattle.quay_tracks.specs.Profile.{other_tracks};
ghost use Rattle.quay.specs.Walk.{AllJudgeable, IsBroken};
ghost use Rattle.quay.specs.Quay.{Checks};

use atoms::kinds;
use bigendian::u32_at;
use places::moov::{Traks, trak_at};
use places::part_of;
use places::trak::Trak;
use quay_tracks::track_rule;
use refusals::Refusal;
use structure::earlier_of;
use structure::source::Source;
use track::id_in;

// The component subtype of the track with that trak.
fn subtype_of(lent: &[u8], trak: Trak) -> u32
    requires { AreParts (part_in lent.now trak.body) trak.parts }
    ensures { result ≡ subtype_of (part_in lent.now trak.body) }
{
    let body = part_of(lent, trak.body);
    let parts = trak.parts;
    u32_at(part_of(body, parts.hdlr), 16)
}

// 1: no track, more than two, or one that is not of pictures.
fn has_other_tracks(lent: &[u8], traks: Traks) -> bool
    requires { FewTraks lent.now (tracks_of (moov_of lent.now)) traks }
    ensures { result ≡ other_tracks (moov_of lent.now) }
{
    let count = traks.count;
    if count == 0 {
        return true;
    }
    if 2 < count {
        return true;
    }
    let mut i: usize = 0;
    while i < count {
        if subtype_of(lent, trak_at(traks, i)) != kinds::VIDE {
            return true;
        }
        i += 1;
    }
    false
}

// The lowest rule that a track breaks, and the ID of the first track that breaks it; both 0 where none does.
#[derive(Clone, Copy)]
struct Broken {
    rule: u32,
    id: u32,
}

// The ID found before where the rule stays, and else the track's own.
fn id_for(lower: u32, rule: u32, id: u32, own: u32) -> u32
    ensures { result ≡ cond (eqb lower rule) id own }
{
    if lower == rule { id } else { own }
}

// Over the tracks, in a movie of that time scale. A later track is named only for a lower rule.
fn lowest_rule(lent: &[u8], traks: Traks, movie: u32) -> Broken
    requires { FewTraks lent.now (tracks_of (moov_of lent.now)) traks × AllJudgeable movie (tracks_of (moov_of lent.now)) }
    ensures { IsBroken movie (tracks_of (moov_of lent.now)) result }
{
    let count = traks.count;
    let mut rule: u32 = 0;
    let mut id: u32 = 0;
    let mut i: usize = 0;
    while i < count {
        let trak = trak_at(traks, i);
        let body = part_of(lent, trak.body);
        let next = track_rule(body, trak.parts, movie);
        let lower = earlier_of(rule, next);
        id = id_for(lower, rule, id, id_in(body, trak.parts));
        rule = lower;
        i += 1;
    }
    Broken { rule, id }
}

// A rule that is broken, from 1, and the ID of the first track that breaks it, 0 for the first rule.
#[derive(Clone, Copy)]
pub struct Breach {
    pub rule: u32,
    pub track: u32,
}

// The lowest rule of the quay film profile that a film breaks; none where it keeps the profile.
pub fn check_quay(lent: &[u8], source: Source) -> Result<Option<Breach>, Refusal>
    ensures { Checks lent.now source result }
{
    let movie = movie::judge(lent, source)?;
    let heads = movie.heads;
    let traks = movie.traks;
    if has_other_tracks(lent, traks) {
        return Ok(Some(Breach { rule: 1, track: 0 }));
    }
    let scale = u32_at(part_of(lent, heads.mvhd), 20);
    let broken = lowest_rule(lent, traks, scale);
    if broken.rule == 0 {
        return Ok(None);
    }
    Ok(Some(Breach {
        rule: broken.rule,
        track: broken.id,
    }))
}
