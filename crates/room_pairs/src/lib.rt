// The byte ranges of some samples, put into lent numbers of 32 or of 64 bits.
#![tactic(auto)]

ghost use Rattle.std.specs.Prelude.{◌≡◌, ℕ, [], ◌∷◌, ◌+◌, ◌≤◌, ◌<◌, ◌^◌, map, length};
ghost use Rattle.std.proofs.Common.{lit≤};
ghost use Rattle.std.proofs.lemmas.List.Edits.{sets};
ghost use Rattle.lists.specs.Lists.{sum};
ghost use Rattle.bigendian.specs.BigEndian.{u32_at};
ghost use Rattle.words.specs.Words.{numbers_in, width_of};
ghost use Rattle.pairs.specs.Pairs.{flat};
ghost use Rattle.pairs.specs.Walks.{pairs_between, lengths_of, Putting, AtOnce, equal_length_pairs, pairs_at_once, Room, Put};
ghost use Rattle.pairs.specs.Moves.{Moving, Moves};

use bigendian::after;
use pairs::listed::{Moved, is_whole, listed_bytes, next_cursor, place_by, sizes_past, sizes_to};
use pairs::{
    ChunkPosition, Pair, common_at_once, is_past, pair_at, place_past, run_at, run_offsets,
    start_place,
};
use words::{is_long, number_in, width_of};

// A number of the room: one of 32 or of 64 bits.
pub trait RoomNumber: Copy {
    // The numbers that it can be are those below the limit.
    ghost limit: { ℕ };

    // What it stands for.
    ghost value: { Self → ℕ };

    fn of(n: u64) -> Self
        requires { n < limit }
        ensures { value result ≡ n };

    ghost fits: { limit ≤ 2 ^ 64 };
}

impl RoomNumber for u32 {
    ghost limit = { 2 ^ 32 };

    ghost value = { λ n. n };

    ghost fits = { lit≤ tt };

    fn of(n: u64) -> u32 {
        n as u32
    }
}

impl RoomNumber for u64 {
    ghost limit = { 2 ^ 64 };

    ghost value = { λ n. n };

    ghost fits = { lit≤ tt };

    fn of(n: u64) -> u64 {
        n
    }
}

// Puts a pair's two numbers into the room, from the place `at` on.
fn put_pair<N: RoomNumber>(q: Pair, room: &mut [N], at: usize)
    requires { (q.offset < N.limit) × (q.length < N.limit) × (at + 2 ≤ length (map N.value room.old)) }
    ensures { map N.value room.new ≡ sets (map N.value room.old) at (q.offset ∷ q.length ∷ []) }
{
    room[at] = N::of(q.offset);
    room[at + 1] = N::of(q.length);
}

// Puts the pairs of chunks that have as many bytes each, one for each of the offsets. Two a turn: with one the time depends on where the loop is.
fn put_run<N: RoomNumber>(offsets: &[u8], long: bool, bytes: u64, room: &mut [N], at: usize) -> u64
    requires { Room N.limit (equal_length_pairs bytes (numbers_in (width_of long) offsets.now)) at (length (map N.value room.old)) }
    ensures { Put (equal_length_pairs bytes (numbers_in (width_of long) offsets.now)) (map N.value room.old) at result (map N.value room.new) }
{
    let width = width_of(long);
    let step = 2 * width;
    let mut t = offsets;
    let mut k = at;
    let mut total: u64 = 0;
    while step <= t.len() {
        let offset = number_in(t, long, 0);
        let next = number_in(t, long, 1);
        put_pair(
            Pair {
                offset,
                length: bytes,
            },
            room,
            k,
        );
        put_pair(
            Pair {
                offset: next,
                length: bytes,
            },
            room,
            k + 2,
        );
        total += bytes;
        total += bytes;
        k += 4;
        t = &t[step..];
    }
    if t.len() < width {
        return total;
    }
    let offset = number_in(t, long, 0);
    put_pair(
        Pair {
            offset,
            length: bytes,
        },
        room,
        k,
    );
    total + bytes
}

// Puts the pairs of some chunks of the run at a place: of one, or of whole ones.
fn put_chunks<N: RoomNumber>(
    stsz: &[u8],
    offsets: &[u8],
    p: ChunkPosition,
    n: u64,
    from: u32,
    stop: u32,
    room: &mut [N],
    at: usize,
) -> u64
    requires { (p.begin < stop) × AtOnce stsz.now offsets.now from stop p n × ((n ≡ 1 → ⊥) → u32_at stsz.now 12 ≡ 0 → ⊥) × Room N.limit (pairs_at_once stsz.now offsets.now from stop p n) at (length (map N.value room.old)) }
    ensures { Put (pairs_at_once stsz.now offsets.now from stop p n) (map N.value room.old) at result (map N.value room.new) }
{
    if n == 1 {
        let q = pair_at(stsz, offsets, p, from, stop);
        put_pair(q, room, at);
        return q.length;
    }
    let these = run_offsets(offsets, p, n);
    let r = run_at(stsz, offsets, p);
    put_run(these, r.long, r.bytes, room, at)
}

// Puts the pairs of the whole chunks whose sizes are listed, from a place on; no sample asked for lies behind it. The sizes go on from chunk to
// chunk.
fn put_listed<N: RoomNumber>(
    stsc: &[u8],
    stsz: &[u8],
    offsets: &[u8],
    chunks: u32,
    place: ChunkPosition,
    from: u32,
    stop: u32,
    room: &mut [N],
    start: usize,
) -> Moved
    requires { Moving N.limit stsc.now stsz.now offsets.now chunks from stop place start (length (map N.value room.old)) }
    ensures { Moves N.limit stsc.now stsz.now offsets.now chunks from stop place (map N.value room.old) start result (map N.value room.new) }
{
    let part = after(offsets, 16);
    let long = is_long(offsets);
    let sizes = sizes_to(stsz, place, stop);
    let first = place.chunk as usize;
    let mut c = place.cursor;
    let mut z = sizes;
    let mut n: usize = 0;
    let mut bytes: u64 = 0;
    while is_whole(c, z.len()) {
        let offset = number_in(part, long, first + n);
        let length = listed_bytes(z, c);
        put_pair(Pair { offset, length }, room, start + 2 * n);
        bytes += length;
        n += 1;
        let others = sizes_past(z, c);
        z = others;
        c = next_cursor(stsc, chunks, c);
    }
    let passed = sizes.len() - z.len();
    Moved {
        place: place_by(place, c, n as u64, passed),
        at: start + 2 * n,
        bytes,
    }
}

// How many pairs were put, and their lengths, added.
#[derive(Clone, Copy)]
pub struct PairsPut {
    pub pairs: usize,
    pub bytes: u64,
}

// Puts the pairs into the first places of the room.
pub fn put_pairs<N: RoomNumber>(
    stsc: &[u8],
    stsz: &[u8],
    offsets: &[u8],
    chunks: u32,
    from: u32,
    stop: u32,
    room: &mut [N],
) -> PairsPut
    requires { Putting N.limit stsc.now stsz.now offsets.now chunks from stop (length room.old) }
    ensures { (result.pairs ≡ length (pairs_between stsc.now stsz.now offsets.now chunks from stop)) × (result.bytes ≡ sum (lengths_of (pairs_between stsc.now stsz.now offsets.now chunks from stop))) × (map N.value room.new ≡ sets (map N.value room.old) 0 (flat (pairs_between stsc.now stsz.now offsets.now chunks from stop))) }
{
    let mut p = start_place(stsc, chunks, from);
    let mut at = 0;
    let mut total: u64 = 0;
    while !is_past(p, stop) {
        let n = common_at_once(stsz, offsets, p, from, stop);
        total += put_chunks(stsz, offsets, p, n, from, stop, room, at);
        at += 2 * n as usize;
        let next = place_past(stsc, chunks, p, n);
        let m = put_listed(stsc, stsz, offsets, chunks, next, from, stop, room, at);
        total += m.bytes;
        at = m.at;
        p = m.place;
    }
    PairsPut {
        pairs: at / 2,
        bytes: total,
    }
}
