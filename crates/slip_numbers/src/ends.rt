// Whether bytes are good numbers below 2^32, told by each byte and the four before it: LLVM makes of such a loop one over sixteen bytes at once.
ghost use Rattle.std.specs.Prelude.{◌≡◌, true, ◌+◌, ◌-◌, ◌≤◌, length, IfSome, Ok};
ghost use Rattle.slip_numbers.specs.Steps.{run, checked_of};
ghost use Rattle.slip_numbers.specs.Ends.{end_of, ends_in, Fine, FineIn};

// 1 where a byte ends a number, else 0: loops without branches add it.
fn end_of(b: u8) -> u8
    ensures { result ≡ end_of b }
{
    if b < 128 { 1 } else { 0 }
}

// 0 where a byte b can stand after b1, b2, b3 and b4, of which b1 is the one just before it; else 1.
fn fault(b: u8, b1: u8, b2: u8, b3: u8, b4: u8) -> u8
    ensures { (result ≤ 1) × (result ≡ 0 → Fine b b1 b2 b3 b4) }
{
    if b1 < 128 {
        return 0;
    }
    if b == 0 {
        return 1;
    }
    if b < 16 {
        return 0;
    }
    if b2 < 128 {
        return 0;
    }
    if b3 < 128 {
        return 0;
    }
    if b4 < 128 {
        return 0;
    }
    1
}

// How many of n bytes end a number; none where one of them cannot stand there. Both counts have a byte each, so that there are sixteen to a vector.
fn few_ends(bytes: &[u8], from: usize, n: usize) -> Option<u8>
    requires { (4 ≤ from) × (n ≤ 192) × (from + n ≤ length bytes.now) }
    ensures { IfSome result (λ ends. (ends ≡ ends_in bytes.now from n) × FineIn bytes.now from (from + n)) }
{
    let mut ends: u8 = 0;
    let mut faults: u8 = 0;
    for at in from..from + n {
        ends += end_of(bytes[at]);
        faults += fault(
            bytes[at],
            bytes[at - 1],
            bytes[at - 2],
            bytes[at - 3],
            bytes[at - 4],
        );
    }
    if faults == 0 { Some(ends) } else { None }
}

// How many of the bytes from a place on end a number; none where one of them cannot stand there.
fn ends_from(bytes: &[u8], from: usize) -> Option<usize>
    requires { (4 ≤ from) × (from ≤ length bytes.now) }
    ensures { IfSome result (λ ends. (ends ≡ ends_in bytes.now from (length bytes.now - from)) × FineIn bytes.now from (length bytes.now)) }
{
    let mut ends: usize = 0;
    let mut at = from;
    while 192 < bytes.len() - at {
        let few = few_ends(bytes, at, 192)?;
        ends += few as usize;
        at += 192;
    }
    let few = few_ends(bytes, at, bytes.len() - at)?;
    Some(ends + few as usize)
}

// Whether the bytes from a place on are found to be c good numbers.
pub(crate) fn are_numbers(bytes: &[u8], c: usize, from: usize) -> bool
    ensures { result ≡ true → checked_of (run 4 16 bytes.now c 6 0 from) ≡ Ok (length bytes.now) }
{
    if from < 4 || bytes.len() <= from || 128 <= bytes[bytes.len() - 1] {
        return false;
    }
    match ends_from(bytes, from) {
        Some(ends) => ends == c,
        None => false,
    }
}
