// The numbers of a slip, checked one after the other by document 01's rules for them.
#![tactic(auto)]

mod ends;

ghost use Rattle.std.specs.Prelude.{◌≡◌, ◌≤◌};
ghost use Rattle.leb128.specs.Reading.{more_of, top_of, place_of};
ghost use Rattle.slip_numbers.specs.Rules.{allowed};
ghost use Rattle.slip_numbers.specs.Steps.{run, checked_of};

use ends::are_numbers;
use leb128::NumberFault;
use number_cursor::Cursor;
use quick_numbers::read_number;

// Bytes that are no slip: the place of the first fault.
#[derive(Clone, Copy, Debug, PartialEq, Eq)]
pub struct Malformed {
    pub place: usize,
}

impl From<NumberFault> for Malformed {
    ghost from_gives = { λ fault m. m ≡ record { place = place_of fault } };

    fn from(fault: NumberFault) -> Malformed {
        Malformed {
            place: fault.place(),
        }
    }
}

// Whether the number that i numbers stand before, the form among them, may be n after the number prev.
fn rule_allows(i: usize, prev: u64, n: u64) -> bool
    ensures { result ≡ allowed i prev n }
{
    match i {
        // the form, track ID and scale
        0..=2 => 0 < n,
        // b, after a
        4 => prev < n,
        // the number of pairs
        5 => 0 < n && n <= 1048576,
        // a, and the numbers of pairs
        _ => true,
    }
}

// Checks c numbers from a cursor, of its width, and answers the place past them. The cursor's count says which numbers of the slip they are.
pub fn check_numbers(bytes: &[u8], c: usize, from: Cursor) -> Result<usize, Malformed>
    requires { from.count ≤ from.at }
    ensures { result ≡ checked_of (run (more_of from.wide) (top_of from.wide) bytes.now c from.count 0 from.at) }
{
    let mut prev: u64 = 0;
    let mut cursor = from;
    for _ in 0..c {
        let at = cursor.at;
        let i = cursor.count;
        let n = cursor.advance(bytes)?.value;
        if !rule_allows(i, prev, n) {
            return Err(Malformed { place: at });
        }
        prev = n;
    }
    Ok(cursor.at)
}

// Checks c numbers of pairs from a place, one after the other. They have no rule but that they are there, so that their count is not looked at.
fn check_each(bytes: &[u8], c: usize, from: usize, wide: bool) -> Result<usize, Malformed>
    ensures { result ≡ checked_of (run (more_of wide) (top_of wide) bytes.now c 6 0 from) }
{
    let mut at = from;
    for _ in 0..c {
        at = read_number(bytes, at, wide)?.next;
    }
    Ok(at)
}

// The same. Most slips have numbers below 2^32, all good and as many as asked up to the end: that is found out without a walk from number to number.
pub fn check_pairs(bytes: &[u8], c: usize, from: usize, wide: bool) -> Result<usize, Malformed>
    ensures { result ≡ checked_of (run (more_of wide) (top_of wide) bytes.now c 6 0 from) }
{
    if !wide && are_numbers(bytes, c, from) {
        return Ok(bytes.len());
    }
    check_each(bytes, c, from, wide)
}
