// The data references of a dref, and whether the samples of every description are in the film's own file.
#![tactic(auto)]

ghost use Rattle.std.specs.Prelude.{◌≡◌, [], get_or};
ghost use Rattle.descriptions.specs.Descriptions.{descriptions};
ghost use Rattle.references.specs.References.{references, is_this_file, names_this_file, all_in_this_file};

use bigendian::{after, byte_at, u16_at};
use leaves::entry_size;

// The data reference at i, counted from 0; empty where there are no more than i.
fn reference_at<'a>(dref: &'a [u8], i: usize) -> &'a [u8]
    ensures { result.now ≡ get_or (references dref.now) i [] }
{
    let part = after(dref, 16);
    let mut t = part;
    let mut skip = i;
    loop {
        let z = entry_size(t, 12);
        if z == 0 {
            return &t[..0];
        }
        if skip == 0 {
            return &t[..z];
        }
        skip -= 1;
        t = &t[z..];
    }
}

// Whether a data reference means this file.
fn is_this_file(reference: &[u8]) -> bool
    ensures { result ≡ is_this_file reference.now }
{
    byte_at(reference, 11) % 2 == 1
}

// Whether the index, counted from 1, names a data reference that means this file.
fn names_this_file(dref: &[u8], index: u16) -> bool
    ensures { result ≡ names_this_file (references dref.now) index }
{
    if index == 0 {
        return false;
    }
    is_this_file(reference_at(dref, index as usize - 1))
}

// Whether every description, each of at least so many bytes, names a data reference that means this file.
pub fn all_in_this_file(dref: &[u8], stsd: &[u8], least: usize) -> bool
    ensures { result ≡ all_in_this_file (references dref.now) (descriptions least stsd.now) }
{
    let part = after(stsd, 16);
    let mut t = part;
    loop {
        let z = entry_size(t, least);
        if z == 0 {
            return true;
        }
        let d = &t[..z];
        if !names_this_file(dref, u16_at(d, 14)) {
            return false;
        }
        t = &t[z..];
    }
}
