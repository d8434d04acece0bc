// The film return for a caller in another language: its state as 83 numbers in lent places.
#![tactic(auto)]

ghost use Rattle.std.specs.Prelude.{◌≤◌, length};
ghost use Rattle.host_film_return.specs.Hands.{FilesNumbers, JoinsNumbers, PutsFiled};

use film_return::add_film;
use return_numbers::{NUMBERS, put_return, return_in};
use return_totals::{Filed, join_returns};
use structure::source::Source;

// Puts the totals of an answer into the first 83 places; a refusal leaves them as they are.
fn put_filed(f: Filed, totals: &mut [u64]) -> u32
    requires { 83 ≤ length totals.old }
    ensures { PutsFiled f totals.old result totals.new }
{
    let refusal = f.refusal;
    if refusal != 0 {
        return refusal;
    }
    let after = f.totals;
    put_return(after, totals);
    0
}

// Adds a film to the return that the first 83 numbers are. 20 and 21 leave them as they are; fewer numbers are refused 16.
pub fn hand_film_return(lent: &[u8], source: Source, totals: &mut [u64]) -> u32
    ensures { FilesNumbers lent.now source totals.old result totals.new }
{
    if totals.len() < NUMBERS {
        return 16;
    }
    let before = return_in(&totals[..]);
    put_filed(add_film(before, lent, source), totals)
}

// Joins another return to the return that the first 83 numbers are. 20 and 21 leave them as they are; fewer numbers in either are refused 16.
pub fn hand_joined_returns(more: &[u64], totals: &mut [u64]) -> u32
    ensures { JoinsNumbers more.now totals.old result totals.new }
{
    if totals.len() < NUMBERS {
        return 16;
    }
    if more.len() < NUMBERS {
        return 16;
    }
    let before = return_in(&totals[..]);
    put_filed(join_returns(before, return_in(more)), totals)
}
