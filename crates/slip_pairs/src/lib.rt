// The numbers of the pairs as a slip writes them: measured, and written, one pair after the other.
#![tactic(auto)]

ghost use Rattle.std.specs.Prelude.{◌≡◌, ◌+◌, ◌≤◌, ◌<◌, ◌^◌, length};
ghost use Rattle.words.specs.Words.{numbers_in, words_in, width_of};
ghost use Rattle.leb128.specs.Numbers.{writes};
ghost use Rattle.pairs.specs.Walks.{pairs_between, Fitting, AtOnce, run_pairs, pairs_at_once, equal_length_pairs};
ghost use Rattle.pair_bytes.specs.Measures.{pair_bytes, measured_of, Wrote};

use bigendian::{after, whole32};
use leb128::number_len;
use pair_bytes::{Measured, both, measure_pair, write_pair};
use pairs::{
    ChunkPosition, Pair, WholeRun, chunks_at_once, first_pair, is_past, pair_at, place_past,
    run_at, run_offsets, run_sizes, start_place,
};
use words::width_of;

// In how many bytes the 32-bit numbers of a table are written.
fn words_len(words: &[u8]) -> usize
    requires { length (writes (words_in words.now)) < 2 ^ 64 }
    ensures { result ≡ length (writes (words_in words.now)) }
{
    let mut t = words;
    let mut len = 0;
    while 4 <= t.len() {
        len += number_len(whole32(t, 0) as u64);
        t = &t[4..];
    }
    len
}

// Of the pairs of whole chunks of a run, one for each of the offsets, pair by pair. The sizes begin with those of their samples.
fn measure_each(offsets: &[u8], sizes: &[u8], r: WholeRun) -> Measured
    requires { length (pair_bytes (run_pairs r (numbers_in (width_of r.long) offsets.now) (words_in sizes.now))) < 2 ^ 64 }
    ensures { result ≡ measured_of (run_pairs r (numbers_in (width_of r.long) offsets.now) (words_in sizes.now)) }
{
    let width = width_of(r.long);
    let mut t = offsets;
    let mut z = sizes;
    let mut m = Measured {
        bytes: 0,
        wide: false,
    };
    while width <= t.len() {
        let q = first_pair(t, z, r);
        m = both(m, measure_pair(q));
        t = &t[width..];
        let others = after(z, r.per as usize * 4);
        z = others;
    }
    m
}

// The same. Where the samples have a common size, the chunks' length is measured once.
fn measure_run(offsets: &[u8], sizes: &[u8], r: WholeRun) -> Measured
    requires { length (pair_bytes (run_pairs r (numbers_in (width_of r.long) offsets.now) (words_in sizes.now))) < 2 ^ 64 }
    ensures { result ≡ measured_of (run_pairs r (numbers_in (width_of r.long) offsets.now) (words_in sizes.now)) }
{
    if r.long {
        return measure_each(offsets, sizes, r);
    }
    if r.listed {
        return measure_each(offsets, sizes, r);
    }
    if 4294967296 <= r.bytes {
        return measure_each(offsets, sizes, r);
    }
    let first = words_len(offsets);
    let second = number_len(r.bytes);
    let chunks = offsets.len() / 4;
    Measured {
        bytes: first + chunks * second,
        wide: false,
    }
}

// Of the pairs of some chunks of the run at a place: of one, or of whole ones.
fn measure_chunks(
    stsz: &[u8],
    offsets: &[u8],
    p: ChunkPosition,
    n: u64,
    from: u32,
    stop: u32,
) -> Measured
    requires { (p.begin < stop) × AtOnce stsz.now offsets.now from stop p n × Fitting (2 ^ 64) (pairs_at_once stsz.now offsets.now from stop p n) × (length (pair_bytes (pairs_at_once stsz.now offsets.now from stop p n)) < 2 ^ 64) }
    ensures { result ≡ measured_of (pairs_at_once stsz.now offsets.now from stop p n) }
{
    if n == 1 {
        return measure_pair(pair_at(stsz, offsets, p, from, stop));
    }
    let these = run_offsets(offsets, p, n);
    let sizes = run_sizes(stsz, p);
    measure_run(these, sizes, run_at(stsz, offsets, p))
}

// Of the pairs of the samples from one index up to, not including, another.
pub fn measure_pairs(
    stsc: &[u8],
    stsz: &[u8],
    offsets: &[u8],
    chunks: u32,
    from: u32,
    stop: u32,
) -> Measured
    requires { (length stsc.now < 2 ^ 32) × Fitting (2 ^ 64) (pairs_between stsc.now stsz.now offsets.now chunks from stop) × (length (pair_bytes (pairs_between stsc.now stsz.now offsets.now chunks from stop)) < 2 ^ 64) }
    ensures { result ≡ measured_of (pairs_between stsc.now stsz.now offsets.now chunks from stop) }
{
    let mut p = start_place(stsc, chunks, from);
    let mut m = Measured {
        bytes: 0,
        wide: false,
    };
    while !is_past(p, stop) {
        let n = chunks_at_once(stsz, offsets, p, from, stop);
        m = both(m, measure_chunks(stsz, offsets, p, n, from, stop));
        p = place_past(stsc, chunks, p, n);
    }
    m
}

// Writes the pairs of whole chunks of a run, one for each of the offsets, pair by pair, and answers the place past them.
fn write_each(offsets: &[u8], sizes: &[u8], r: WholeRun, out: &mut [u8], at: usize) -> usize
    requires { at + length (pair_bytes (run_pairs r (numbers_in (width_of r.long) offsets.now) (words_in sizes.now))) ≤ length out.old }
    ensures { Wrote (run_pairs r (numbers_in (width_of r.long) offsets.now) (words_in sizes.now)) out.old at result out.new }
{
    let width = width_of(r.long);
    let mut t = offsets;
    let mut z = sizes;
    let mut k = at;
    while width <= t.len() {
        let q = first_pair(t, z, r);
        k = write_pair(q, out, k);
        t = &t[width..];
        let others = after(z, r.per as usize * 4);
        z = others;
    }
    k
}

// Writes the pairs of chunks with 32-bit offsets and a common length, and answers the place past them.
fn write_common(offsets: &[u8], bytes: u64, out: &mut [u8], at: usize) -> usize
    requires { at + length (pair_bytes (equal_length_pairs bytes (words_in offsets.now))) ≤ length out.old }
    ensures { Wrote (equal_length_pairs bytes (words_in offsets.now)) out.old at result out.new }
{
    let mut t = offsets;
    let mut k = at;
    while 4 <= t.len() {
        let offset = whole32(t, 0) as u64;
        k = write_pair(
            Pair {
                offset,
                length: bytes,
            },
            out,
            k,
        );
        t = &t[4..];
    }
    k
}

// The same as `write_each`, without a look at the sizes where they are common.
fn write_run(offsets: &[u8], sizes: &[u8], r: WholeRun, out: &mut [u8], at: usize) -> usize
    requires { at + length (pair_bytes (run_pairs r (numbers_in (width_of r.long) offsets.now) (words_in sizes.now))) ≤ length out.old }
    ensures { Wrote (run_pairs r (numbers_in (width_of r.long) offsets.now) (words_in sizes.now)) out.old at result out.new }
{
    if r.long {
        return write_each(offsets, sizes, r, out, at);
    }
    if r.listed {
        return write_each(offsets, sizes, r, out, at);
    }
    write_common(offsets, r.bytes, out, at)
}

// Writes the pairs of some chunks of the run at a place: of one, or of whole ones.
fn write_chunks(
    stsz: &[u8],
    offsets: &[u8],
    p: ChunkPosition,
    n: u64,
    from: u32,
    stop: u32,
    out: &mut [u8],
    at: usize,
) -> usize
    requires { (p.begin < stop) × AtOnce stsz.now offsets.now from stop p n × Fitting (2 ^ 64) (pairs_at_once stsz.now offsets.now from stop p n) × (at + length (pair_bytes (pairs_at_once stsz.now offsets.now from stop p n)) ≤ length out.old) }
    ensures { Wrote (pairs_at_once stsz.now offsets.now from stop p n) out.old at result out.new }
{
    if n == 1 {
        let q = pair_at(stsz, offsets, p, from, stop);
        return write_pair(q, out, at);
    }
    let these = run_offsets(offsets, p, n);
    let sizes = run_sizes(stsz, p);
    let r = run_at(stsz, offsets, p);
    write_run(these, sizes, r, out, at)
}

// Writes the pairs of the samples from one index up to, not including, another, from the place `at` on, and answers the place past them.
pub fn write_pairs(
    stsc: &[u8],
    stsz: &[u8],
    offsets: &[u8],
    chunks: u32,
    from: u32,
    stop: u32,
    out: &mut [u8],
    at: usize,
) -> usize
    requires { (length stsc.now < 2 ^ 32) × Fitting (2 ^ 64) (pairs_between stsc.now stsz.now offsets.now chunks from stop) × (at + length (pair_bytes (pairs_between stsc.now stsz.now offsets.now chunks from stop)) ≤ length out.old) }
    ensures { Wrote (pairs_between stsc.now stsz.now offsets.now chunks from stop) out.old at result out.new }
{
    let mut p = start_place(stsc, chunks, from);
    let mut k = at;
    while !is_past(p, stop) {
        let n = chunks_at_once(stsz, offsets, p, from, stop);
        k = write_chunks(stsz, offsets, p, n, from, stop, out, k);
        p = place_past(stsc, chunks, p, n);
    }
    k
}
