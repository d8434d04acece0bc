// The totals of a film return, held by value, and what is added to them: a track, a file accepted, a file refused, another return.
#![tactic(auto)]

ghost use Rattle.std.specs.Prelude.{◌≡◌, ◌==◌, cond, ◌≤◌, ◌<◌, length, take, position, [], ◌∷◌};
ghost use Rattle.return_totals.specs.Returns.{empty_return, empty_state, with_track, with_accepted, with_refused, slot_of, scales_in, return_of};
ghost use Rattle.return_totals.specs.Following.{Sums, AddsUnits, Adds, Follows, SettlesAll, later_refusal, unchanged};
ghost use Rattle.return_totals.specs.Following.{with_met, with_counts, with_more_at, with_each};
ghost use Rattle.return_totals.specs.Joining.{Joins};

// How many scales are held.
pub const MOST_SCALES: usize = 32;

// Files accepted, files refused under each of the numbers 1 to 13 and 19, tracks, samples, bytes, and the media time scales met, each with its
// tracks' totals added. Of the scales the first `count` are held.
#[derive(Clone, Copy)]
pub struct FilmReturn {
    pub accepted: u64,
    pub refused: [u64; 14],
    pub tracks: u64,
    pub samples: u64,
    pub bytes: u64,
    pub count: usize,
    pub scales: [u32; 32],
    pub units: [u64; 32],
}

impl FilmReturn {
    pub fn empty() -> FilmReturn
        ensures { (result ≡ empty_state) × (return_of result ≡ empty_return) }
    {
        FilmReturn {
            accepted: 0,
            refused: [0u64; 14],
            tracks: 0,
            samples: 0,
            bytes: 0,
            count: 0,
            scales: [0u32; 32],
            units: [0u64; 32],
        }
    }
}

// What a return counts of a track: its scale, its total, its samples and the bytes of all its sizes.
#[derive(Clone, Copy)]
pub struct TrackTotals {
    pub scale: u32,
    pub total: u64,
    pub samples: u64,
    pub bytes: u64,
}

// What is added to four of the totals at once.
#[derive(Clone, Copy)]
struct Counts {
    accepted: u64,
    tracks: u64,
    samples: u64,
    bytes: u64,
}

// A return after a file: 0, or 20 or 21, and the totals.
#[derive(Clone, Copy)]
pub struct Filed {
    pub refusal: u32,
    pub totals: FilmReturn,
}

// A sum, and whether it would reach 2^64; where it would, the first number stays.
fn sum_of(a: u64, b: u64) -> (u64, bool)
    ensures { Sums a b result }
{
    match a.checked_add(b) {
        Some(sum) => (sum, false),
        None => (a, true),
    }
}

fn over_refusal(over: bool) -> u32
    ensures { result ≡ cond over 21 0 }
{
    if over { 21 } else { 0 }
}

// The index of a scale among the first n; none where it is not there.
fn find_scale(scales: &[u32; 32], n: usize, scale: u32) -> Option<usize>
    requires { (length scales.now ≡ 32) × (n ≤ 32) }
    ensures { result ≡ position (λ x. x == scale) (take n scales.now) }
{
    scales[..n].iter().position(|x| *x == scale)
}

// Units more for a scale.
fn add_units(r: FilmReturn, scale: u32, units: u64) -> Filed
    ensures { AddsUnits r scale units result }
{
    let n = r.count.min(MOST_SCALES);
    let scales = r.scales;
    let mut next = r;
    match find_scale(&scales, n, scale) {
        Some(i) => {
            let (sum, over) = sum_of(next.units[i], units);
            next.units[i] = sum;
            let refusal = over_refusal(over);
            Filed {
                refusal,
                totals: next,
            }
        }
        None if n < MOST_SCALES => {
            next.scales[n] = scale;
            next.units[n] = units;
            next.count = n + 1;
            Filed {
                refusal: 0,
                totals: next,
            }
        }
        None => Filed {
            refusal: 20,
            totals: r,
        },
    }
}

// The refusal so far, and then that of a total that would reach 2^64.
fn later_refusal(before: u32, over: bool) -> u32
    ensures { result ≡ later_refusal before over }
{
    if before == 20 {
        return 20;
    }
    over_refusal(before == 21 || over)
}

// A return before anything is added to it.
fn unchanged_return(r: FilmReturn) -> Filed
    ensures { (result ≡ unchanged r) × (Follows r (return_of r) result) }
{
    Filed {
        refusal: 0,
        totals: r,
    }
}

// Units more for a scale, in a return so far.
fn add_scale(f: Filed, scale: u32, units: u64) -> Filed
    ensures { Adds (with_met (record { scale = scale; total = units } ∷ [])) f result }
{
    let r = f.totals;
    let added = add_units(r, scale, units);
    let met = added.refusal;
    if met == 20 {
        return Filed {
            refusal: 20,
            totals: r,
        };
    }
    let next = added.totals;
    let refusal = later_refusal(f.refusal, met == 21);
    Filed {
        refusal,
        totals: next,
    }
}

// Files, tracks, samples and bytes more.
fn add_counts(f: Filed, c: Counts) -> Filed
    ensures { Adds (with_counts c) f result }
{
    let mut next = f.totals;
    let (accepted, accepted_over) = sum_of(next.accepted, c.accepted);
    let (tracks, tracks_over) = sum_of(next.tracks, c.tracks);
    let (samples, samples_over) = sum_of(next.samples, c.samples);
    let (bytes, bytes_over) = sum_of(next.bytes, c.bytes);
    next.accepted = accepted;
    next.tracks = tracks;
    next.samples = samples;
    next.bytes = bytes;
    let over = (accepted_over | tracks_over) | (samples_over | bytes_over);
    let refusal = later_refusal(f.refusal, over);
    Filed {
        refusal,
        totals: next,
    }
}

// n files more that are refused, at one of the fourteen places.
fn add_at(f: Filed, i: usize, n: u64) -> Filed
    requires { i < 14 }
    ensures { Adds (with_more_at i n) f result }
{
    let mut next = f.totals;
    let (sum, over) = sum_of(next.refused[i], n);
    next.refused[i] = sum;
    let refusal = later_refusal(f.refusal, over);
    Filed {
        refusal,
        totals: next,
    }
}

// A track more, in the return of a file so far.
pub fn add_track(f: Filed, t: TrackTotals) -> Filed
    ensures { Adds (with_track t) f result }
{
    let counts = Counts {
        accepted: 0,
        tracks: 1,
        samples: t.samples,
        bytes: t.bytes,
    };
    add_counts(add_scale(f, t.scale, t.total), counts)
}

// One file accepted more.
pub fn add_accepted(r: FilmReturn) -> Filed
    ensures { Follows r (with_accepted (return_of r)) result }
{
    let counts = Counts {
        accepted: 1,
        tracks: 0,
        samples: 0,
        bytes: 0,
    };
    add_counts(unchanged_return(r), counts)
}

// The place of a refusal's number among the fourteen; 14 for another number.
fn slot_of(number: u32) -> usize
    ensures { result ≡ slot_of number }
{
    match number {
        1..=13 => (number - 1) as usize,
        19 => 13,
        _ => 14,
    }
}

// One file more that is refused with that number; one that is none of the fourteen leaves the return as it is.
pub fn add_refused(r: FilmReturn, number: u32) -> Filed
    ensures { Follows r (with_refused number (return_of r)) result }
{
    let i = slot_of(number);
    let f = unchanged_return(r);
    if 14 <= i {
        return f;
    }
    add_at(f, i, 1)
}

// The return with the whole of a file in it; the one before it where that is refused.
pub fn settle(r: FilmReturn, f: Filed) -> Filed
    ensures { SettlesAll r f result }
{
    let refusal = f.refusal;
    if refusal != 0 {
        return Filed { refusal, totals: r };
    }
    f
}

// The scales of another return, one after the other.
fn add_scales(f: Filed, other: FilmReturn) -> Filed
    ensures { Adds (with_met (scales_in other)) f result }
{
    let mut g = f;
    for i in 0..other.count.min(MOST_SCALES) {
        g = add_scale(g, other.scales[i], other.units[i]);
    }
    g
}

// The numbers of refused files of another return.
fn add_each(f: Filed, other: FilmReturn) -> Filed
    ensures { Adds (with_each other.refused) f result }
{
    let mut g = f;
    for i in 0..14 {
        g = add_at(g, i, other.refused[i]);
    }
    g
}

// The return of both: r's scales first, then those of s that r has not, in their order. 20 and 21 leave r as it was.
pub fn join_returns(r: FilmReturn, s: FilmReturn) -> Filed
    ensures { Joins r s result }
{
    let counts = Counts {
        accepted: s.accepted,
        tracks: s.tracks,
        samples: s.samples,
        bytes: s.bytes,
    };
    let scales = add_scales(unchanged_return(r), s);
    let files = add_each(add_counts(scales, counts), s);
    settle(r, files)
}
