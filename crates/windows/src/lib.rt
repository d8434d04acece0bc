// The window of a pass over stts and stsz: the samples of the run that begins at its tail; and the best run so far. The tables are read as they stand in
// the file and never expanded.
#![tactic(auto)]

ghost use Rattle.std.specs.Prelude.{◌≡◌, ◌+◌, ◌-◌, ◌≤◌, ◌<◌, length};
ghost use Rattle.runs.specs.Runs.{per_sample};
ghost use Rattle.words.specs.Words.{sizes};
ghost use Rattle.windows.specs.Windows.{Timed, start_window, grown_by, Slides, Reaches, rated_run, IsRated, no_higher, no_higher_run, are_single, Raises};

use bigendian::whole32;
use rates::rate;
use runs::cursor::{RunCursor, run_pass, run_ready, run_start};
use words::size_of;

// The samples from index `first` up to, not including, `stop`: how long they last, their bytes, and a cursor of stts at each end.
#[derive(Clone, Copy)]
pub struct Window {
    pub tail: RunCursor,
    pub head: RunCursor,
    pub first: u32,
    pub stop: u32,
    pub span: u64,
    pub bytes: u64,
}

// A run with its rate: the number of its first sample, from 1, how many it has, their bytes, and how long they last.
#[derive(Clone, Copy)]
pub struct RatedRun {
    pub rate: u32,
    pub first: u32,
    pub count: u32,
    pub bytes: u64,
    pub span: u64,
}

// The window before the first sample.
pub fn start_window(stts: &[u8]) -> Window
    ensures { result ≡ start_window stts.now }
{
    let c = run_ready(stts, run_start());
    Window {
        tail: c,
        head: c,
        first: 0,
        stop: 0,
        span: 0,
        bytes: 0,
    }
}

// One sample more at the head.
fn grown(stts: &[u8], w: Window, size: u32) -> Window
    requires { (w.stop < 4294967295) × (w.span < 4294967296) × (w.bytes < 4611686018427387904) }
    ensures { result ≡ grown_by stts.now size w }
{
    let tail = w.tail;
    let head = w.head;
    Window {
        tail,
        head: run_ready(stts, run_pass(head, 1)),
        first: w.first,
        stop: w.stop + 1,
        span: w.span + head.each as u64,
        bytes: w.bytes + size as u64,
    }
}

// Samples are taken in at the head until they last a second, while there are any.
pub fn extended(stts: &[u8], stsz: &[u8], w: Window, scale: u32) -> Window
    requires { Slides scale stts.now stsz.now w × Timed scale (per_sample stts.now) (sizes stsz.now) }
    ensures { Reaches scale stts.now stsz.now w.first result }
{
    let mut r = w;
    while r.span < scale as u64 {
        let head = r.head;
        if head.count == 0 {
            return r;
        }
        r = grown(stts, r, size_of(stsz, r.stop));
    }
    r
}

// The window of the next sample: one sample less at the tail, and as many more at the head as make up a second.
pub fn next_window(stts: &[u8], stsz: &[u8], w: Window, scale: u32) -> Window
    requires { Slides scale stts.now stsz.now w × Timed scale (per_sample stts.now) (sizes stsz.now) × (scale ≤ w.span) }
    ensures { Reaches scale stts.now stsz.now (w.first + 1) result }
{
    let tail = w.tail;
    let head = w.head;
    let first = w.first;
    let rest = Window {
        tail: run_ready(stts, run_pass(tail, 1)),
        head,
        first: first + 1,
        stop: w.stop,
        span: w.span - tail.each as u64,
        bytes: w.bytes - size_of(stsz, first) as u64,
    };
    extended(stts, stsz, rest, scale)
}

// A window's run with its rate, where that can be computed.
pub fn rated(w: Window, scale: u32) -> Option<RatedRun>
    requires { (w.first ≤ w.stop) × (w.stop ≤ 1048576) × (w.span < 4294967296) }
    ensures { (result ≡ rated_run scale w.first (w.stop - w.first) w.bytes w.span) × IsRated scale result }
{
    let first = w.first;
    let bytes = w.bytes;
    let span = w.span;
    let rate = rate(bytes, 8 * (scale as u64), span)?;
    Some(RatedRun {
        rate,
        first: first + 1,
        count: w.stop - first,
        bytes,
        span,
    })
}

// Whether so many bytes in so long are, by cross-multiplication, no more a second than another run's. Where that is not told in 64 bits, the answer is no.
fn is_no_higher(bytes: u64, span: u64, other: RatedRun) -> bool
    requires { (span < 4294967296) × (other.span < 4294967296) }
    ensures { result ≡ no_higher bytes span other }
{
    if 4294967295 < bytes {
        return false;
    }
    if 4294967295 < other.bytes {
        return false;
    }
    bytes * other.span <= other.bytes * span
}

// Whether a window that lasts `rest` without its last sample is the run of its first one, and no higher than the best run.
pub fn is_no_higher_run(rest: u64, span: u64, bytes: u64, scale: u32, best: RatedRun) -> bool
    requires { (span < 4294967296) × (best.span < 4294967296) }
    ensures { result ≡ no_higher_run rest span bytes scale best }
{
    if scale as u64 <= rest {
        return false;
    }
    if span < scale as u64 {
        return false;
    }
    is_no_higher(bytes, span, best)
}

// Whether two entries have one sample each.
pub fn are_single(a: &[u8], b: &[u8]) -> bool
    requires { (8 ≤ length a.now) × (8 ≤ length b.now) }
    ensures { result ≡ are_single a.now b.now }
{
    if whole32(a, 0) != 1 {
        return false;
    }
    whole32(b, 0) == 1
}

// The better of the best run so far and a window's, where the rates of all can be computed. Only a run that may be higher has its rate computed.
pub fn raised(best: Option<RatedRun>, w: Window, scale: u32) -> Option<RatedRun>
    requires { IsRated scale best × (w.first ≤ w.stop) × (w.stop ≤ 1048576) × (0 < w.span) × (w.span < 4294967296) }
    ensures { Raises scale best w result }
{
    let b = best?;
    if is_no_higher(w.bytes, w.span, b) {
        return Some(b);
    }
    let r = rated(w, scale)?;
    if b.rate < r.rate {
        return Some(r);
    }
    Some(b)
}
