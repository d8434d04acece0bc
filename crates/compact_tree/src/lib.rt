// A moov atom's body written with every track's tables compact.
#![tactic(auto)]

ghost use Rattle.std.specs.Prelude.{◌≡◌, ◌^◌, ◌<◌, length, take};
ghost use Rattle.atoms.specs.Atoms.{header_of};
ghost use Rattle.byte_writing.specs.Bytes.{Fits, Wrote};
ghost use Rattle.compact_tree.specs.Tree.{compact_body};

use atoms::{body_of, is_container, kinds, size_in};
use bigendian::u32_at;
use byte_writing::{front, put_bytes};
use compact_tables::put_tables;

// An atom's header: the bytes before its body.
pub fn header_of(atom: &[u8]) -> &[u8]
    ensures { result.now ≡ take (header_of atom.now) atom.now }
{
    front(atom, atom.len() - body_of(atom).len())
}

// Writes the body of an atom of that kind, down to that many levels, and returns the offset past it.
pub fn put_body(body: &[u8], parent: u32, level: u32, out: &mut [u8], at: usize) -> usize
    requires { (length body.now < 2 ^ 32) × Fits (compact_body level parent body.now) out.old at }
    ensures { Wrote (compact_body level parent body.now) out.old at result out.new }
{
    if level == 0 {
        return put_bytes(body, out, at);
    }
    if parent == kinds::STBL {
        return put_tables(body, out, at);
    }
    let mut t = body;
    let mut k = at;
    loop {
        let n = size_in(t, parent);
        if n < 8 {
            return k;
        }
        let atom = &t[..n];
        let kind = u32_at(atom, 4);
        if is_container(parent, kind) {
            let b = put_bytes(header_of(atom), out, k);
            k = put_body(body_of(atom), kind, level - 1, out, b);
        } else {
            k = put_bytes(atom, out, k);
        }
        t = &t[n..];
    }
}
