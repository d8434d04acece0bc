// The body of an stbl written with its stts and stsc compact and the bytes that this frees as one free atom.
#![tactic(auto)]

ghost use Rattle.std.specs.Prelude.{◌≡◌, ◌+◌, ◌^◌, ◌≤◌, ◌<◌, length};
ghost use Rattle.std.proofs.lemmas.List.Edits.{sets};
ghost use Rattle.lists.specs.Entries.{entries};
ghost use Rattle.byte_writing.specs.Bytes.{Fits, Wrote};
ghost use Rattle.compact_entries.specs.Entries.{compact_runs, compact_deals};
ghost use Rattle.compact_tables.specs.Tables.{head_bytes, with_entries, free_atom, compact_table, compact_tables};

use atoms::{kinds, size_in};
use bigendian::{after, u32_at};
use byte_writing::{front, put_bytes, put_u32, put_zeros};
use compact_entries::{put_deals, put_runs};

// The type of an atom that only takes up bytes: 'free'.
const FREE: u64 = 0x66726565;

// Writes the head of a table: its size and its count; type, version and flags are copied.
fn put_head(atom: &[u8], out: &mut [u8], at: usize, size: u64, count: u64)
    requires { (16 ≤ length atom.now) × (at + 16 ≤ length out.old) }
    ensures { out.new ≡ sets out.old at (head_bytes atom.now size count) }
{
    put_u32(out, at, size);
    put_bytes(front(after(atom, 4), 8), out, at + 4);
    put_u32(out, at + 12, count);
}

// Writes an stts with the fewest entries. The entries come first: where they end gives the size and the count.
fn put_stts(atom: &[u8], out: &mut [u8], at: usize) -> usize
    requires { (16 ≤ length atom.now) × (length atom.now < 2 ^ 32)
        × Fits (with_entries atom.now (compact_runs (entries 16 8 atom.now))) out.old at }
    ensures { Wrote (with_entries atom.now (compact_runs (entries 16 8 atom.now)))
        out.old at result out.new }
{
    let end = put_runs(after(atom, 16), out, at + 16);
    let size = end - at;
    put_head(atom, out, at, size as u64, ((size - 16) / 8) as u64);
    end
}

// Writes an stsc with the fewest entries.
fn put_stsc(atom: &[u8], out: &mut [u8], at: usize) -> usize
    requires { (16 ≤ length atom.now) × Fits (with_entries atom.now (compact_deals (entries 16 12 atom.now))) out.old at }
    ensures { Wrote (with_entries atom.now (compact_deals (entries 16 12 atom.now)))
        out.old at result out.new }
{
    let end = put_deals(after(atom, 16), out, at + 16);
    let size = end - at;
    put_head(atom, out, at, size as u64, ((size - 16) / 12) as u64);
    end
}

// Writes an atom of an stbl and returns the offset past it.
fn put_table(atom: &[u8], out: &mut [u8], at: usize) -> usize
    requires { (length atom.now < 2 ^ 32) × Fits (compact_table atom.now) out.old at }
    ensures { Wrote (compact_table atom.now) out.old at result out.new }
{
    if atom.len() < 16 {
        return put_bytes(atom, out, at);
    }
    let kind = u32_at(atom, 4);
    if kind == kinds::STTS {
        return put_stts(atom, out, at);
    }
    if kind == kinds::STSC {
        return put_stsc(atom, out, at);
    }
    put_bytes(atom, out, at)
}

// Writes a free atom of n bytes and returns the offset past it; nothing where n is less than an atom's header.
fn put_free(out: &mut [u8], at: usize, n: usize) -> usize
    requires { Fits (free_atom n) out.old at }
    ensures { Wrote (free_atom n) out.old at result out.new }
{
    if n < 8 {
        return at;
    }
    put_u32(out, at, n as u64);
    put_u32(out, at + 4, FREE);
    put_zeros(out, at + 8, n - 8)
}

// Writes the body of an stbl and returns the offset past it.
pub fn put_tables(body: &[u8], out: &mut [u8], at: usize) -> usize
    requires { (length body.now < 2 ^ 32) × Fits (compact_tables body.now) out.old at }
    ensures { Wrote (compact_tables body.now) out.old at result out.new }
{
    let mut t = body;
    let mut k = at;
    loop {
        let n = size_in(t, kinds::STBL);
        if n < 8 {
            let used = k - at;
            if body.len() < used {
                return k;
            }
            return put_free(out, k, body.len() - used);
        }
        k = put_table(&t[..n], out, k);
        t = &t[n..];
    }
}
