// Reading one number, written in groups of seven bits, lowest group first, the top bit set on all but the last.
ghost use Rattle.std.specs.Prelude.{◌≡◌, ◌+◌, ◌*◌, ◌≤◌, ◌<◌, ◌^◌, eqb};
ghost use Rattle.leb128.specs.Reading.{limit, more_of, top_of, read_at, place_of, found};
ghost use Rattle.leb128.specs.Joining.{joined};

// A number and the place past it.
#[derive(Clone, Copy, Debug, PartialEq, Eq)]
pub struct Number {
    pub value: u64,
    pub next: usize,
}

// Why no number stands at a place: it is broken, with its first byte, or cut short, with the end of the bytes.
#[derive(Clone, Copy, Debug, PartialEq, Eq)]
pub enum NumberFault {
    Broken(usize),
    Short(usize),
}

impl NumberFault {
    // The place that the fault is charged to.
    pub fn place(self) -> usize
        ensures { result ≡ place_of self }
    {
        match self {
            NumberFault::Broken(place) => place,
            NumberFault::Short(end) => end,
        }
    }
}

// The number from `at` on whose last group is b at p, after groups that count `low`. A last group of 0 after others is a byte too many.
fn ended(at: usize, p: usize, low: u64, unit: u64, b: u8) -> Result<Number, NumberFault>
    requires { (p + 1 < 2 ^ 64) × (low + unit * b < 2 ^ 64) }
    ensures { result ≡ joined at (eqb p at) low unit (found b (p + 1)) }
{
    if p != at && b == 0 {
        return Err(NumberFault::Broken(at));
    }
    Ok(Number {
        value: low + unit * u64::from(b),
        next: p + 1,
    })
}

// The number at a place, of at most more + 1 groups, the last of more + 1 groups below top.
fn number_in(bytes: &[u8], at: usize, more: usize, top: u8) -> Result<Number, NumberFault>
    requires { (1 < top) × (top ≤ 128) × (limit more top ≤ 2 ^ 64) }
    ensures { result ≡ read_at more top bytes.now at }
{
    let mut low: u64 = 0;
    let mut unit: u64 = 1;
    for p in at..bytes.len() {
        let b = bytes[p];
        let rest = more - (p - at);
        if rest == 0 {
            if b < top {
                return ended(at, p, low, unit, b);
            }
            return Err(NumberFault::Broken(at));
        }
        if b < 128 {
            return ended(at, p, low, unit, b);
        }
        low += unit * u64::from(b - 128);
        unit *= 128;
    }
    Err(NumberFault::Short(bytes.len()))
}

// The number at a place: below 2^64 where wide, in ten groups at most, the tenth below 2; else below 2^32, in five, the fifth below 16.
pub fn number_at(bytes: &[u8], at: usize, wide: bool) -> Result<Number, NumberFault>
    ensures { result ≡ read_at (more_of wide) (top_of wide) bytes.now at }
{
    if wide {
        return number_in(bytes, at, 9, 2);
    }
    number_in(bytes, at, 4, 16)
}
