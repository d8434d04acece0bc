// A track opened once, for a caller in another language: the handle as 19 numbers in lent places, and the questions by it.
#![tactic(auto)]

ghost use Rattle.std.specs.Prelude.{◌≡◌};
ghost use Rattle.host_opened.specs.Handle.{opened_in, HandsHandle};
ghost use Rattle.host_opened.specs.Hands.{HandsOpening, HandsSample, HandsNumber, HandsTime};

use edits::{MediaTime, MovieTime};
use hand::hand;
use host_samples::hand_sample_answer;
use host_times::{hand_number_answer, hand_time_answer};
use opened::Opened;
use structure::source::Source;
use table_numbers::{low_at, part_at, tables_at};

// How many they are.
pub const NUMBERS: usize = 19;

// The handle that the first 19 numbers are: one too large for its field is cut to the field's width, and one that is not there is 0.
pub fn handle_in(numbers: &[u64]) -> Opened
    ensures { result ≡ opened_in numbers.now }
{
    Opened {
        tables: tables_at(numbers),
        elst: part_at(numbers, 12),
        samples: low_at(numbers, 14),
        chunks: low_at(numbers, 15),
        scale: low_at(numbers, 16),
        movie: low_at(numbers, 17),
        total: low_at(numbers, 18),
    }
}

// Puts the numbers of a handle into the first 19 places.
fn hand_handle(h: Opened, places: &mut [u64]) -> u32
    ensures { HandsHandle h places.old result places.new }
{
    let t = h.tables;
    let stts = t.stts;
    let ctts = t.ctts;
    let stsc = t.stsc;
    let stsz = t.stsz;
    let offsets = t.offsets;
    let stss = t.stss;
    let elst = h.elst;
    hand(
        0,
        &[
            stts.at as u64,
            stts.len as u64,
            ctts.at as u64,
            ctts.len as u64,
            stsc.at as u64,
            stsc.len as u64,
            stsz.at as u64,
            stsz.len as u64,
            offsets.at as u64,
            offsets.len as u64,
            stss.at as u64,
            stss.len as u64,
            elst.at as u64,
            elst.len as u64,
            h.samples as u64,
            h.chunks as u64,
            h.scale as u64,
            h.movie as u64,
            h.total as u64,
        ],
        places,
    )
}

// Opens a track: its handle in 19 places.
pub fn hand_opening(lent: &[u8], source: Source, id: u32, handle: &mut [u64]) -> u32
    ensures { HandsOpening lent.now source id handle.old result handle.new }
{
    match Opened::of(lent, source, id) {
        Ok(h) => hand_handle(h, handle),
        Err(e) => hand(u32::from(e), &[0u64; 19], handle),
    }
}

// Sample n by a handle, in eight places.
pub fn hand_opened_sample(lent: &[u8], handle: &[u64], n: u32, places: &mut [i64]) -> u32
    ensures { HandsSample lent.now handle.now n places.old result places.new }
{
    if handle.len() < NUMBERS {
        return 16;
    }
    let h = handle_in(handle);
    hand_sample_answer(h.sample(lent, n), places)
}

// The number of the sample at media time t, and the position of its entry in stts, by a handle, in two places.
pub fn hand_opened_sample_at(lent: &[u8], handle: &[u64], t: u32, places: &mut [u64]) -> u32
    ensures { HandsNumber lent.now handle.now t places.old result places.new }
{
    if handle.len() < NUMBERS {
        return 16;
    }
    let h = handle_in(handle);
    hand_number_answer(h.sample_at(lent, MediaTime(t)), places)
}

// What movie time t shows, by a handle, in two places.
pub fn hand_opened_media_time(lent: &[u8], handle: &[u64], t: u32, places: &mut [u64]) -> u32
    ensures { HandsTime lent.now handle.now t places.old result places.new }
{
    if handle.len() < NUMBERS {
        return 16;
    }
    let h = handle_in(handle);
    hand_time_answer(h.media_time(lent, MovieTime(t)), places)
}
