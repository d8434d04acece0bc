// The questions, a line each: the result, every place lent and every place of the room, whether filled or left.
use super::show;
use host_features::hand_feature;
use host_profiles::hand_profile;
use host_samples::hand_sample;
use host_times::{hand_media_time, hand_sample_at};
use host_wide_stretches::hand_wide_stretch;
use host_written_slips::hand_written_slip;
use std::io;
use structure::source::Source;

// What every place holds before a question.
pub const GUARD: u32 = 77777;

pub const PLACE: u64 = 77777;

pub fn sample(rt: &impl Print, moov: &[u8], length: u64, id: u32, n: u32) -> io::Result<()> {
    let mut places = [77777i64; 8];
    let r = hand_sample(moov, Source::of_moov(length), id, n, &mut places);
    show::asked(rt, b"  sample", id, n, r)?;
    show::signed_numbers(rt, &places)?;
    show::text(rt, b"\n")
}

// The sample at a media time.
pub fn at(rt: &impl Print, moov: &[u8], length: u64, id: u32, t: u32) -> io::Result<()> {
    let mut places = [PLACE; 2];
    let r = hand_sample_at(moov, Source::of_moov(length), id, t, &mut places);
    show::asked(rt, b"  at", id, t, r)?;
    show::numbers(rt, &places)?;
    show::text(rt, b"\n")
}

// Movie time to media time.
pub fn map(rt: &impl Print, moov: &[u8], length: u64, id: u32, t: u32) -> io::Result<()> {
    let mut places = [PLACE; 2];
    let r = hand_media_time(moov, Source::of_moov(length), id, t, &mut places);
    show::asked(rt, b"  map", id, t, r)?;
    show::numbers(rt, &places)?;
    show::text(rt, b"\n")
}

pub fn feature(rt: &impl Print, moov: &[u8], length: u64, id: u32, code: u32) -> io::Result<()> {
    let mut places = [PLACE; 1];
    let r = hand_feature(moov, Source::of_moov(length), id, code, &mut places);
    show::asked(rt, b"  feature", id, code, r)?;
    show::numbers(rt, &places)?;
    show::text(rt, b"\n")
}

// The stored profile, with room for two records.
pub fn profile(rt: &impl Print, moov: &[u8], length: u64, id: u32) -> io::Result<()> {
    let mut places = [PLACE; 1];
    let mut room = [GUARD; 6];
    let r = hand_profile(moov, Source::of_moov(length), id, &mut room, &mut places);
    show::asked(rt, b"  profile", id, 6, r)?;
    show::numbers(rt, &places)?;
    show::words(rt, &room)?;
    show::text(rt, b"\n")
}

fn stretch_in(
    rt: &impl Print,
    moov: &[u8],
    length: u64,
    id: u32,
    a: u32,
    b: u32,
    room: &mut [u64],
) -> io::Result<()> {
    let mut places = [PLACE; 2];
    let r = hand_wide_stretch(moov, Source::of_moov(length), id, a, b, room, &mut places);
    show::between(rt, b"  stretch", id, a, b, r)?;
    show::numbers(rt, &places)?;
    show::numbers(rt, room)?;
    show::text(rt, b"\n")
}

// A stretch, with room for eight pairs of 64 bits.
pub fn stretch(
    rt: &impl Print,
    moov: &[u8],
    length: u64,
    id: u32,
    a: u32,
    b: u32,
) -> io::Result<()> {
    let mut room = [PLACE; 16];
    stretch_in(rt, moov, length, id, a, b, &mut room)
}

// W's whole stretch with just the room for its two pairs, and for seven, and with one place less than each.
pub fn rooms(rt: &impl Print, moov: &[u8], length: u64, id: u32) -> io::Result<()> {
    let mut two = [PLACE; 4];
    stretch_in(rt, moov, length, id, 0, 120, &mut two)?;
    let mut below_two = [PLACE; 3];
    stretch_in(rt, moov, length, id, 0, 120, &mut below_two)?;
    let mut seven = [PLACE; 14];
    stretch_in(rt, moov, length, id, 0, 120, &mut seven)?;
    let mut below_seven = [PLACE; 13];
    stretch_in(rt, moov, length, id, 0, 120, &mut below_seven)
}

// A slip, with room for 64 bytes.
pub fn slip(rt: &impl Print, moov: &[u8], length: u64, id: u32, a: u32, b: u32) -> io::Result<()> {
    let mut places = [PLACE; 1];
    let mut room = [0xEEu8; 64];
    let r = hand_written_slip(
        moov,
        Source::of_moov(length),
        id,
        a,
        b,
        &mut room,
        &mut places,
    );
    show::between(rt, b"  slip", id, a, b, r)?;
    show::numbers(rt, &places)?;
    show::text(rt, b" ")?;
    show::bytes(rt, &room)?;
    show::text(rt, b"\n")
}
