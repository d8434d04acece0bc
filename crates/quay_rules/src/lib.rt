// Rules of the quay film profile, each of the tables that it speaks of, in one pass.
#![tactic(auto)]

ghost use Rattle.std.specs.Prelude.{◌≡◌, true, replicate};
ghost use Rattle.runs.specs.Runs.{per_sample};
ghost use Rattle.words.specs.Words.{words_in, sizes, syncs_agree};
ghost use Rattle.quay_rules.specs.Rules.{sync_flags, lacks_syncs, has_zero, too_fast};
ghost use Rattle.quay_rules.specs.Computed.{long_group};

use bigendian::{after, u32_at};
use words::{number_in, span};

// How many samples there may be from a sync sample up to the next one, or to the end.
const MOST_OF_A_GROUP: u32 = 250;

// Whether a group has more than 250 samples, from the numbers of the sync samples, of which the first is 1.
fn has_long_group(numbers: &[u8], samples: u32) -> bool
    ensures { result ≡ long_group 250 samples 1 (words_in numbers.now) }
{
    let mut last: u32 = 1;
    for entry in numbers.chunks_exact(4) {
        let number = u32_at(entry, 0);
        if MOST_OF_A_GROUP < span(last, number) {
            return true;
        }
        last = number;
    }
    MOST_OF_A_GROUP <= span(last, samples)
}

// Whether the first sample is not sync, or a group of samples is too long, in a track of so many samples. Without stss each sample is sync.
// "A track with no samples breaks the fifth."
pub fn lacks_syncs(stss: &[u8], samples: u32) -> bool
    requires { syncs_agree stss.now samples ≡ true }
    ensures { result ≡ lacks_syncs (sync_flags stss.now samples) }
{
    if samples == 0 {
        return true;
    }
    if stss.len() == 0 {
        return false;
    }
    let numbers = after(stss, 16);
    if number_in(numbers, false, 0) != 1 {
        return true;
    }
    has_long_group(numbers, samples)
}

// Whether a sample has no bytes.
pub fn has_zero_size(stsz: &[u8]) -> bool
    ensures { result ≡ has_zero (sizes stsz.now) }
{
    if u32_at(stsz, 12) != 0 {
        return false;
    }
    for entry in after(stsz, 20).chunks_exact(4) {
        if u32_at(entry, 0) == 0 {
            return true;
        }
    }
    false
}

// Whether a sample of a run has no duration.
fn is_zero_run(count: u32, each: u32) -> bool
    ensures { result ≡ has_zero (replicate count each) }
{
    if count == 0 {
        return false;
    }
    each == 0
}

// Whether a sample has no duration.
pub fn has_zero_duration(stts: &[u8]) -> bool
    ensures { result ≡ has_zero (per_sample stts.now) }
{
    for entry in after(stts, 16).chunks_exact(8) {
        if is_zero_run(u32_at(entry, 0), u32_at(entry, 4)) {
            return true;
        }
    }
    false
}

// 30.0 frames a second, as vfps counts them.
const MOST_FRAMES: u32 = 1966080;

// Whether vfps is above that, or can't be computed.
pub fn is_too_fast(frames: Option<u32>) -> bool
    ensures { result ≡ too_fast frames }
{
    match frames {
        Some(v) => MOST_FRAMES < v,
        None => true,
    }
}
