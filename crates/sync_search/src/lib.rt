// Whether a sample is sync, by halving stss, whose numbers rise.
#![tactic(auto)]

ghost use Rattle.std.specs.Prelude.{◌≡◌};
ghost use Rattle.sync_search.specs.Search.{last_upto, Searched};

use bigendian::{after, u32_at};
use words::{HEAD, WORD};

// The last of the numbers of a part that is not above x, by halving; the first where there is none.
fn last_upto(part: &[u8], x: u32) -> usize
    ensures { result ≡ last_upto part.now x }
{
    let mut low = 0;
    let mut high = part.len() / WORD;
    while 1 < high - low {
        let middle = low + (high - low) / 2;
        if u32_at(part, middle * WORD) <= x {
            low = middle;
        } else {
            high = middle;
        }
    }
    low
}

// Whether the number is listed, where the numbers rise, or there is no stss.
pub fn is_sync_rising(stss: &[u8], number: u32) -> bool
    ensures { Searched stss.now number result }
{
    if stss.len() == 0 {
        return true;
    }
    let part = after(stss, HEAD);
    if part.len() < WORD {
        return false;
    }
    let i = last_upto(part, number);
    u32_at(part, i * WORD) == number
}
