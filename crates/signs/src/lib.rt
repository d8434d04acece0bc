// What programs write of a signed number: its absolute value, after a minus where it is negative.
#![tactic(auto)]

ghost use Rattle.std.specs.Prelude.{◌≡◌, nat_abs};

// Taken from -1 where it is negative, since the least number has no opposite.
pub fn absolute(n: i64) -> u64
    ensures { result ≡ nat_abs n }
{
    if n >= 0 {
        return n as u64;
    }
    (-1 - n) as u64 + 1
}
