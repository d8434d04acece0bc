// A position of the stepper as 29 numbers, in the order of its structs' fields, for a caller in another language.
#![tactic(auto)]

ghost use Rattle.std.specs.Prelude.{◌≡◌, ◌<◌};
ghost use Rattle.position_numbers.specs.Position.{run_at, cursor_at, moving_at, stepper_in, HandsPosition};

use chunks::ChunkCursor;
use hand::hand;
use positions::dealt::Dealt;
use positions::moving::Moving;
use runs::cursor::RunCursor;
use stepping::Stepper;
use table_numbers::{low_at, number_at, place_at, tables_at};

// How many they are.
pub const NUMBERS: usize = 29;

fn run_at(numbers: &[u64], i: usize) -> RunCursor
    requires { i < 29 }
    ensures { result ≡ run_at numbers.now i }
{
    RunCursor {
        at: place_at(numbers, i),
        count: low_at(numbers, i + 1),
        each: low_at(numbers, i + 2),
    }
}

fn cursor_at(numbers: &[u64]) -> ChunkCursor
    ensures { result ≡ cursor_at numbers.now }
{
    ChunkCursor {
        at: place_at(numbers, 21),
        remaining: number_at(numbers, 22),
        per: low_at(numbers, 23),
        description: low_at(numbers, 24),
    }
}

fn moving_at(numbers: &[u64]) -> Moving
    ensures { result ≡ moving_at numbers.now }
{
    Moving {
        index: low_at(numbers, 13),
        decode: number_at(numbers, 14),
        times: run_at(numbers, 15),
        shifts: run_at(numbers, 18),
        dealt: Dealt {
            cursor: cursor_at(numbers),
            chunk: low_at(numbers, 25),
            rest: low_at(numbers, 26),
            offset: number_at(numbers, 27),
        },
        sync: place_at(numbers, 28),
    }
}

// The position that the first 29 numbers are: one too large for its field is cut to the field's width, and one that is not there is 0.
pub fn position_in(numbers: &[u64]) -> Stepper
    ensures { result ≡ stepper_in numbers.now }
{
    Stepper {
        tables: tables_at(numbers),
        samples: low_at(numbers, 12),
        moving: moving_at(numbers),
    }
}

// Puts the numbers of a position into the first 29 places.
pub fn hand_position(p: Stepper, places: &mut [u64]) -> u32
    ensures { HandsPosition p places.old result places.new }
{
    let t = p.tables;
    let m = p.moving;
    let stts = t.stts;
    let ctts = t.ctts;
    let stsc = t.stsc;
    let stsz = t.stsz;
    let offsets = t.offsets;
    let stss = t.stss;
    let times = m.times;
    let shifts = m.shifts;
    let dealt = m.dealt;
    let cursor = dealt.cursor;
    hand(
        0,
        &[
            stts.at as u64,
            stts.len as u64,
            ctts.at as u64,
            ctts.len as u64,
            stsc.at as u64,
            stsc.len as u64,
            stsz.at as u64,
            stsz.len as u64,
            offsets.at as u64,
            offsets.len as u64,
            stss.at as u64,
            stss.len as u64,
            p.samples as u64,
            m.index as u64,
            m.decode,
            times.at as u64,
            times.count as u64,
            times.each as u64,
            shifts.at as u64,
            shifts.count as u64,
            shifts.each as u64,
            cursor.at as u64,
            cursor.remaining,
            cursor.per as u64,
            cursor.description as u64,
            dealt.chunk as u64,
            dealt.rest as u64,
            dealt.offset,
            m.sync as u64,
        ],
        places,
    )
}
