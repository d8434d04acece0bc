// Bytes written into a slice from an offset on.
#![tactic(auto)]

ghost use Rattle.std.specs.Prelude.{◌≡◌, ◌+◌, ◌≤◌, length, take, replicate};
ghost use Rattle.std.proofs.lemmas.List.Edits.{sets};
ghost use Rattle.byte_writing.specs.Bytes.{be32, Fits, Wrote};

// The first n bytes; all where there are no more.
pub fn front(s: &[u8], n: usize) -> &[u8]
    ensures { result.now ≡ take n s.now }
{
    s.get(..n).unwrap_or(s)
}

// Writes a number in four bytes, most significant first; of a larger number its lowest 32 bits.
pub fn put_u32(out: &mut [u8], at: usize, n: u64)
    requires { at + 4 ≤ length out.old }
    ensures { out.new ≡ sets out.old at (be32 n) }
{
    out[at] = (n / 16777216 % 256) as u8;
    out[at + 1] = (n / 65536 % 256) as u8;
    out[at + 2] = (n / 256 % 256) as u8;
    out[at + 3] = (n % 256) as u8;
}

// Copies the bytes to an offset and returns the offset past them.
pub fn put_bytes(from: &[u8], out: &mut [u8], at: usize) -> usize
    requires { Fits from.now out.old at }
    ensures { Wrote from.now out.old at result out.new }
{
    for (i, byte) in from.iter().enumerate() {
        out[at + i] = *byte;
    }
    at + from.len()
}

// Writes n zeros and returns the offset past them.
pub fn put_zeros(out: &mut [u8], at: usize, n: usize) -> usize
    requires { at + n ≤ length out.old }
    ensures { (result ≡ at + n) × (out.new ≡ sets out.old at (replicate n 0)) }
{
    let end = at + n;
    out[at..end].fill(0);
    end
}
