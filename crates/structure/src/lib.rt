// How a film is lent, and refusals in the order of judging; the definitions of a movie and its tracks, for the crates above.
#![tactic(auto)]

pub mod source;

ghost use Rattle.std.specs.Prelude.{◌≡◌, ◌||◌};
ghost use Rattle.refusals.specs.Refusals.{code};
ghost use Rattle.structure.specs.Rows.{rank};
ghost use Rattle.structure.specs.ByTracks.{earlier_of};

use refusals::Refusal;

// `||` of two answers that are both had: code without a branch is shorter to prove.
pub fn either(a: bool, b: bool) -> bool
    ensures { result ≡ (a || b) }
{
    a || b
}

// The place of a number in the order of judging.
fn rank_of(n: u32) -> u64
    ensures { result ≡ rank n }
{
    if n == 19 { 23 } else { n as u64 + n as u64 }
}

// The one of two numbers that is judged earlier, 0 being none.
pub fn earlier_of(a: u32, b: u32) -> u32
    ensures { result ≡ earlier_of a b }
{
    if a == 0 {
        return b;
    }
    if b == 0 {
        return a;
    }
    if rank_of(a) <= rank_of(b) { a } else { b }
}

// The one of two refusals that is judged earlier.
pub fn earlier_refusal(a: Result<(), Refusal>, b: Result<(), Refusal>) -> Result<(), Refusal>
    ensures { code result ≡ earlier_of (code a) (code b) }
{
    match (a, b) {
        (Err(x), Err(y)) => Err(x.min(y)),
        (Ok(()), _) => b,
        (_, Ok(())) => a,
    }
}
