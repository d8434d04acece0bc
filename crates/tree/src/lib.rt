// The rules that hold of every body of the tree, all in one walk.
#![tactic(auto)]

ghost use Rattle.std.specs.Prelude.{◌≡◌, false};
ghost use Rattle.tree.specs.Checks.{all_right, none_right, both_checks, leaf_checks, tree_checks, Unruled};

use atoms::{body_of, is_container, kinds, size_in};
use bigendian::u32_at;
use leaves::{form_of, size_ok, version_ok};
use presence::{has_its_atoms, nothing_counted, with_kind};

// Whether each rule holds: atoms fill a body exactly; it has the atoms that it must have; each read leaf has its version, and its size.
#[derive(Clone, Copy, Debug, PartialEq, Eq)]
pub struct Checks {
    pub filled: bool,
    pub present: bool,
    pub versions: bool,
    pub sizes: bool,
}

fn all_right() -> Checks
    ensures { result ≡ all_right }
{
    Checks {
        filled: true,
        present: true,
        versions: true,
        sizes: true,
    }
}

fn none_right() -> Checks
    ensures { result ≡ none_right }
{
    Checks {
        filled: false,
        present: false,
        versions: false,
        sizes: false,
    }
}

fn both_checks(a: Checks, b: Checks) -> Checks
    ensures { result ≡ both_checks a b }
{
    Checks {
        filled: a.filled && b.filled,
        present: a.present && b.present,
        versions: a.versions && b.versions,
        sizes: a.sizes && b.sizes,
    }
}

// What is asked of an atom of that kind as a read leaf; nothing where it is none.
fn leaf_checks(atom: &[u8], parent: u32, kind: u32, wide: bool) -> Checks
    ensures { result ≡ leaf_checks wide parent kind atom.now }
{
    let f = form_of(parent, kind, wide);
    Checks {
        filled: true,
        present: true,
        versions: version_ok(f, atom),
        sizes: size_ok(f, atom),
    }
}

// Whether a rule speaks of atoms of that kind. The walk passes over all others at once.
#[tactic(auto, unfolding(presence::specs::Counts::with_kind, presence::specs::Counts::bump, leaves::specs::Leaves::form_of, atoms::specs::Kinds::container))]
fn is_ruled(kind: u32) -> bool
    ensures { result ≡ false → Unruled kind }
{
    matches!(
        kind,
        kinds::MOOV
            | kinds::TRAK
            | kinds::EDTS
            | kinds::MDIA
            | kinds::MINF
            | kinds::STBL
            | kinds::DINF
            | kinds::MVHD
            | kinds::TKHD
            | kinds::ELST
            | kinds::MDHD
            | kinds::HDLR
            | kinds::DREF
            | kinds::STSD
            | kinds::STTS
            | kinds::CTTS
            | kinds::STSC
            | kinds::STSZ
            | kinds::STCO
            | kinds::CO64
            | kinds::STSS
    )
}

// The rules of the body of that parent and of the body of every container below it, with that many levels to go.
pub fn check_tree(body: &[u8], parent: u32, level: u32, wide: bool) -> Checks
    ensures { result ≡ tree_checks wide level parent body.now }
{
    if level == 0 {
        return none_right();
    }
    let mut t = body;
    let mut counts = nothing_counted();
    let mut found = all_right();
    loop {
        let n = size_in(t, parent);
        if n < 8 {
            let here = Checks {
                filled: t.len() == 0,
                present: has_its_atoms(counts, parent, wide),
                versions: true,
                sizes: true,
            };
            return both_checks(here, found);
        }
        let atom = &t[..n];
        let kind = u32_at(atom, 4);
        if is_ruled(kind) {
            counts = with_kind(counts, kind);
            found = both_checks(found, leaf_checks(atom, parent, kind, wide));
            if is_container(parent, kind) {
                found = both_checks(found, check_tree(body_of(atom), kind, level - 1, wide));
            }
        }
        t = &t[n..];
    }
}
