// Quotients rounded up, of products that are found out to be 2^64 or more before they are made.
#![tactic(auto)]

ghost use Rattle.std.specs.Prelude.{◌≡◌, ◌*◌, ◌<◌};
ghost use Rattle.rates.specs.Rates.{Least, rate_of};

// A quotient rounded up: the least number that, times the divisor, reaches the numerator. So 29.97 frames a second, which are 65536 × 30000 / 1001 in
// units of 1 / 65536, are 1,964,115 and a remainder of 885: one more is 1,964,116, or 0x001DF854.
pub fn ceiling(n: u64, d: u64) -> u64
    requires { 0 < d }
    ensures { Least n d result }
{
    n.div_ceil(d)
}

// The value of a feature, a × b / d, rounded up; `None` where it cannot be computed.
pub fn rate(a: u64, b: u64, d: u64) -> Option<u32>
    ensures { result ≡ rate_of (a * b) d }
{
    if d == 0 {
        return None;
    }
    let n = a.checked_mul(b)?;
    let v = ceiling(n, d);
    u32::try_from(v).ok()
}
