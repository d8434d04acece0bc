// The highest rate over a second: one pass over stts and stsz with two positions, the ends of a window, that only move forward. The tables are read
// as they stand in the file and never expanded.
#![tactic(auto)]

ghost use Rattle.std.specs.Prelude.{◌≡◌, true, ◌+◌, ◌-◌, ◌*◌, ◌≤◌, ◌<◌, length, Some};
ghost use Rattle.runs.specs.Runs.{per_sample};
ghost use Rattle.words.specs.Words.{words_in, sizes};
ghost use Rattle.windows.specs.Windows.{Timed, Slides, IsRated};
ghost use Rattle.peaks.specs.Peaks.{peak_in};
ghost use Rattle.peaks.specs.Slides.{Stays, SlidOver, MaySlide, Slid, Levels, slid_by, Absorbs, Skips, to_peak};
ghost use Rattle.peaks.specs.EntrySlides.{window_at, HasEntries, MayStand};

use bigendian::{after, u32_at, whole32};
use runs::cursor::{RunCursor, run_pass, run_ready};
use windows::{
    RatedRun, Window, are_single, extended, is_no_higher_run, next_window, raised, rated,
    start_window,
};

// The highest rate, the number of the first sample whose run has it, from 1, and how many samples that run has.
#[derive(Clone, Copy)]
pub struct Peak {
    pub rate: u32,
    pub first: u32,
    pub count: u32,
}

// How far a window slides, and its bytes there.
#[derive(Clone, Copy)]
pub struct Slide {
    pub moved: u32,
    pub bytes: u64,
}

// Over listed sizes, those at the window's tail and those at its head: while its bytes are no more than `most`. What entered and what left are two sums,
// so that the compiler reads both sizes as whole words.
fn slide_listed(tails: &[u8], heads: &[u8], bytes: u64, most: u64) -> Slide
    requires { Stays (words_in tails.now) (words_in heads.now) bytes most × (length heads.now ≤ length tails.now) }
    ensures { SlidOver (words_in tails.now) (words_in heads.now) bytes most result }
{
    let mut t = tails;
    let mut h = heads;
    let mut moved: u32 = 0;
    let mut entered = bytes;
    let mut left: u64 = 0;
    while 4 <= h.len() {
        let more = entered + whole32(h, 0) as u64;
        let gone = left + whole32(t, 0) as u64;
        let next = more - gone;
        if most < next {
            break;
        }
        entered = more;
        left = gone;
        moved += 1;
        t = &t[4..];
        h = &h[4..];
    }
    let total = entered - left;
    Slide {
        moved,
        bytes: total,
    }
}

// A window from index `first` up to `stop`, over as many samples as `steps`. With a common size its bytes stay the same.
fn slide_over(stsz: &[u8], first: u32, stop: u32, steps: u32, bytes: u64, most: u64) -> Slide
    requires { MaySlide (sizes stsz.now) first stop steps bytes most }
    ensures { Slid (sizes stsz.now) first stop steps bytes most result }
{
    if u32_at(stsz, 12) != 0 {
        return Slide {
            moved: steps,
            bytes,
        };
    }
    let part = after(stsz, 20);
    let tails = after(part, (first as usize) * 4);
    let heads = after(part, (stop as usize) * 4);
    let end = (steps as usize) * 4;
    slide_listed(&tails[..end], &heads[..end], bytes, most)
}

// The most bytes in so long that are no more a second than a run's; 0 where that is not told in 64 bits.
fn most_bytes(best: RatedRun, span: u64) -> u64
    requires { (0 < best.span) × (span < 4294967296) }
    ensures { result * best.span ≤ best.bytes * span }
{
    if 4294967295 < best.bytes {
        return 0;
    }
    best.bytes * span / best.span
}

// How many samples of one duration lie ahead of both ends of a window; 0 where the next sample's run is not just one sample further on.
fn level_steps(w: Window, scale: u32) -> u32
    ensures { Levels scale w result }
{
    let tail = w.tail;
    let head = w.head;
    if tail.each != head.each {
        return 0;
    }
    if scale as u64 + tail.each as u64 <= w.span {
        return 0;
    }
    if tail.count < head.count {
        return tail.count;
    }
    head.count
}

// The window slid on.
fn moved_by(stts: &[u8], w: Window, s: Slide) -> Window
    requires { (w.stop + s.moved < 4294967296) × (w.first ≤ w.stop) }
    ensures { result ≡ slid_by stts.now s w }
{
    let tail = w.tail;
    let head = w.head;
    let moved = s.moved;
    Window {
        tail: run_ready(stts, run_pass(tail, moved)),
        head: run_ready(stts, run_pass(head, moved)),
        first: w.first + moved,
        stop: w.stop + moved,
        span: w.span,
        bytes: s.bytes,
    }
}

// A window that slides entry by entry: how many samples it has moved, the durations of the sample at its tail and of the one at its head, how long it lasts,
// and its bytes as what entered without what left.
#[derive(Clone, Copy)]
pub struct EntrySlide {
    pub moved: u32,
    pub out: u32,
    pub into: u32,
    pub span: u64,
    pub entered: u64,
    pub left: u64,
}

// Whether both ends of a window stand in entries of one sample, and sizes are listed.
fn has_entries(stts: &[u8], stsz: &[u8], w: Window) -> bool
    ensures { result ≡ true → HasEntries stts.now stsz.now w }
{
    let tail = w.tail;
    let head = w.head;
    if tail.count != 1 {
        return false;
    }
    if head.count != 1 {
        return false;
    }
    if head.at < tail.at {
        return false;
    }
    if stts.len() < head.at {
        return false;
    }
    u32_at(stsz, 12) == 0
}

// The window where a slide by entries has taken it.
fn window_at(w: Window, x: EntrySlide) -> Window
    requires { MayStand w x }
    ensures { result ≡ window_at w x }
{
    let tail = w.tail;
    let head = w.head;
    let moved = x.moved;
    let far = (moved as usize) * 8;
    Window {
        tail: RunCursor {
            at: tail.at + far,
            count: 1,
            each: x.out,
        },
        head: RunCursor {
            at: head.at + far,
            count: 1,
            each: x.into,
        },
        first: w.first + moved,
        stop: w.stop + moved,
        span: x.span,
        bytes: x.entered - x.left,
    }
}

// The window slid on entry by entry, while it keeps its number of samples and is no higher than the best run.
fn slide_entries(stts: &[u8], stsz: &[u8], w: Window, best: RatedRun, scale: u32) -> Window
    requires { Slides scale stts.now stsz.now w × Timed scale (per_sample stts.now) (sizes stsz.now) × (scale ≤ w.span) × IsRated scale (Some best) × Absorbs scale (Some best) w × HasEntries stts.now stsz.now w }
    ensures { Skips scale stts.now stsz.now (Some best) w result }
{
    let tail = w.tail;
    let head = w.head;
    let part = after(stsz, 20);
    let mut t = after(stts, tail.at);
    let mut h = after(stts, head.at);
    let mut o = after(part, (w.first as usize) * 4);
    let mut i = after(part, (w.stop as usize) * 4);
    let mut x = EntrySlide {
        moved: 0,
        out: tail.each,
        into: head.each,
        span: w.span,
        entered: w.bytes,
        left: 0,
    };
    while 8 <= h.len() {
        if i.len() < 4 {
            break;
        }
        let rest = x.span - x.out as u64;
        let span = rest + x.into as u64;
        let entered = x.entered + whole32(i, 0) as u64;
        let left = x.left + whole32(o, 0) as u64;
        let bytes = entered - left;
        if !is_no_higher_run(rest, span, bytes, scale, best) {
            break;
        }
        if !are_single(t, h) {
            break;
        }
        x = EntrySlide {
            moved: x.moved + 1,
            out: whole32(t, 4),
            into: whole32(h, 4),
            span,
            entered,
            left,
        };
        t = &t[8..];
        h = &h[8..];
        o = &o[4..];
        i = &i[4..];
    }
    window_at(w, x)
}

// The window slid on, by entries of one sample or in long runs of one duration, while it is no higher than the best run.
fn slid(stts: &[u8], stsz: &[u8], w: Window, best: Option<RatedRun>, scale: u32) -> Window
    requires { Slides scale stts.now stsz.now w × Timed scale (per_sample stts.now) (sizes stsz.now) × (scale ≤ w.span) × IsRated scale best × Absorbs scale best w }
    ensures { Skips scale stts.now stsz.now best w result }
{
    let Some(b) = best else {
        return w;
    };
    if has_entries(stts, stsz, w) {
        return slide_entries(stts, stsz, w, b, scale);
    }
    let steps = level_steps(w, scale);
    if steps < 8 {
        return w;
    }
    let most = most_bytes(b, w.span);
    if most < w.bytes {
        return w;
    }
    moved_by(
        stts,
        w,
        slide_over(stsz, w.first, w.stop, steps, w.bytes, most),
    )
}

fn to_peak(best: Option<RatedRun>) -> Option<Peak>
    ensures { result ≡ to_peak best }
{
    let b = best?;
    Some(Peak {
        rate: b.rate,
        first: b.first,
        count: b.count,
    })
}

// The peak of a track, by its tables and its time scale, where it can be computed. Where no run lasts a second, the first window has the whole track.
pub fn peak_of(stts: &[u8], stsz: &[u8], scale: u32) -> Option<Peak>
    requires { Timed scale (per_sample stts.now) (sizes stsz.now) }
    ensures { result ≡ peak_in scale (per_sample stts.now) (sizes stsz.now) }
{
    let mut w = extended(stts, stsz, start_window(stts), scale);
    let mut best = rated(w, scale);
    while scale as u64 <= w.span {
        best = raised(best, w, scale);
        w = next_window(stts, stsz, slid(stts, stsz, w, best, scale), scale);
    }
    to_peak(best)
}
