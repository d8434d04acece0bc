// Writing one number into lent bytes. Nothing is written where it does not fit whole.
ghost use Rattle.std.specs.Prelude.{◌≡◌, ◌+◌, ◌≤◌, length};
ghost use Rattle.std.proofs.lemmas.List.Edits.{sets};
ghost use Rattle.leb128.specs.Numbers.{groups};
ghost use Rattle.leb128.specs.Writing.{put_at, past_put};

// How many bytes a number is written in, group by group.
fn counted_len(n: u64) -> usize
    ensures { result ≡ length (groups n) }
{
    let mut rest = n;
    let mut len = 1;
    while 128 <= rest {
        rest = rest / 128;
        len += 1;
    }
    len
}

// How many bytes a number is written in. Most have few, and then there is no loop.
pub fn number_len(n: u64) -> usize
    ensures { result ≡ length (groups n) }
{
    if n < 128 {
        return 1;
    }
    if n < 16384 {
        return 2;
    }
    if n < 2097152 {
        return 3;
    }
    if n < 268435456 {
        return 4;
    }
    counted_len(n)
}

// Writes a number's groups from a place on, where it is known that they fit, and answers the place past them.
pub fn store_number(out: &mut [u8], at: usize, n: u64) -> usize
    requires { at + length (groups n) ≤ length out.old }
    ensures { (result ≡ at + length (groups n)) × (out.new ≡ sets out.old at (groups n)) }
{
    let mut rest = n;
    let mut p = at;
    while 128 <= rest {
        out[p] = (128 + rest % 128) as u8;
        rest = rest / 128;
        p += 1;
    }
    out[p] = rest as u8;
    p + 1
}

// Writes a number at a place and answers the place past it; where it does not fit, leaves the bytes as they are.
pub fn put_number(out: &mut [u8], at: usize, n: u64) -> Option<usize>
    ensures { (result ≡ past_put out.old at (groups n)) × (out.new ≡ put_at out.old at (groups n)) }
{
    let end = at.checked_add(number_len(n))?;
    if out.len() < end {
        return None;
    }
    Some(store_number(out, at, n))
}
