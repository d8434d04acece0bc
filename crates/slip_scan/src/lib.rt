// Stepping through a slip: its form, its head and its pairs.
#![tactic(auto)]

ghost use Rattle.std.specs.Prelude.{◌≡◌, ◌<◌};
ghost use Rattle.leb128.specs.Reading.{more_of, top_of};
ghost use Rattle.slip_scan.specs.Steps.{rest_in, wide_in, scan_in};

use leb128::number_at;
use number_cursor::Cursor;
use number_values::fill;
use slip_head::Head;
use slip_numbers::{Malformed, check_numbers, check_pairs};

// What is found of a slip: its head, and the place where its pairs begin.
#[derive(Clone, Copy, Debug, PartialEq, Eq)]
pub struct Scanned {
    pub head: Head,
    pub pairs_at: usize,
}

// Finds out whether what follows the form, from a place on, is the rest of a slip whose numbers are of that width.
fn find_rest(bytes: &[u8], from: usize, wide: bool) -> Result<Scanned, Malformed>
    requires { 0 < from }
    ensures { result ≡ rest_in (more_of wide) (top_of wide) bytes.now from }
{
    let start = Cursor {
        at: from,
        count: 1,
        wide,
    };
    let pairs_at = check_numbers(bytes, 5, start)?;
    let mut numbers = [0u64; 5];
    fill(bytes, from, &mut numbers, 5);
    let head = Head {
        id: numbers[0],
        scale: numbers[1],
        a: numbers[2],
        b: numbers[3],
        pairs: numbers[4],
    };
    let end = check_pairs(bytes, 2 * (head.pairs as usize), pairs_at, wide)?;
    if end != bytes.len() {
        return Err(Malformed { place: end });
    }
    Ok(Scanned { head, pairs_at })
}

// What follows form 2: numbers below 2^64 that are not all below 2^32, so that form 1 cannot have them.
fn find_wide(bytes: &[u8], from: usize) -> Result<Scanned, Malformed>
    requires { 0 < from }
    ensures { result ≡ wide_in bytes.now from }
{
    match find_rest(bytes, from, false) {
        Ok(_) => Err(Malformed { place: 0 }),
        Err(_) => find_rest(bytes, from, true),
    }
}

// Finds out whether bytes are a slip, where any is set also one of form 2: the form first, which says how the rest is read.
pub fn find_slip(bytes: &[u8], any: bool) -> Result<Scanned, Malformed>
    ensures { result ≡ scan_in any bytes.now }
{
    let form = number_at(bytes, 0, false)?;
    if form.value == 1 {
        return find_rest(bytes, form.next, false);
    }
    if any && form.value == 2 {
        return find_wide(bytes, form.next);
    }
    Err(Malformed { place: 0 })
}
