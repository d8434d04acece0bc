// What refusal 9 asks of stsc alone: whether its entries agree with the numbers of chunks and of descriptions, and deal all samples.
#![tactic(auto)]

ghost use Rattle.std.specs.Prelude.{◌≡◌, ◌&&◌, eqb};
ghost use Rattle.lists.specs.Lists.{sum};
ghost use Rattle.chunks.specs.Chunks.{per_chunk};
ghost use Rattle.chunks.specs.Computed.{right_entry, deals_agree};

use bigendian::{after, u32_at};
use chunks::{first_of, span};

// Whether an entry holds for some chunk, has samples in each, and names a description.
fn right_entry(first: u64, next: u64, per: u32, id: u32, descriptions: u32) -> bool
    ensures { result ≡ right_entry first next per id descriptions }
{
    if next <= first {
        return false;
    }
    if per == 0 {
        return false;
    }
    if id == 0 {
        return false;
    }
    id <= descriptions
}

// Whether stsc agrees with the numbers of chunks and of descriptions, and deals so many samples: both in one pass.
pub fn deals_samples(stsc: &[u8], chunks: u32, descriptions: u32, samples: u32) -> bool
    ensures { result ≡ (deals_agree stsc.now chunks descriptions && eqb (sum (per_chunk stsc.now chunks)) samples) }
{
    let part = after(stsc, 16);
    let mut ahead = part;
    let mut first = first_of(part, chunks);
    if first != 1 {
        return false;
    }
    let mut rest = samples as u64;
    while 12 <= ahead.len() {
        let per = u32_at(ahead, 4);
        let id = u32_at(ahead, 8);
        ahead = &ahead[12..];
        let next = first_of(ahead, chunks);
        let right = right_entry(first, next, per, id, descriptions);
        if !right {
            return false;
        }
        let here = span(first, next) * per as u64;
        if rest < here {
            return false;
        }
        rest -= here;
        first = next;
    }
    rest == 0
}
