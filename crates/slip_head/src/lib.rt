// The numbers of a slip, document 01's word for a receipt, before its pairs, written into lent bytes. A writer puts the pairs after them with `put_number`.
#![tactic(auto)]

ghost use Rattle.std.specs.Prelude.{◌≡◌, Bool, [], length};
ghost use Rattle.leb128.specs.Numbers.{writes};
ghost use Rattle.leb128.specs.Writing.{put_at, past_put};
ghost use Rattle.slip_head.specs.Bytes.{form_for, head_numbers};

use leb128::{number_len, store_number};

// A slip's numbers without its pairs: track ID, time scale, media times a to b, and the number of pairs.
#[derive(Clone, Copy, Debug, PartialEq, Eq)]
pub struct Head {
    pub id: u64,
    pub scale: u64,
    pub a: u64,
    pub b: u64,
    pub pairs: u64,
}

// How many bytes the numbers before a slip's pairs are written in, the form included, which takes a byte whichever it is.
pub fn head_len(head: Head) -> usize
    ensures { (wide : Bool) → result ≡ length (writes (head_numbers (form_for wide) head [])) }
{
    let first = 1 + number_len(head.id) + number_len(head.scale);
    first + number_len(head.a) + number_len(head.b) + number_len(head.pairs)
}

fn form(wide: bool) -> u64
    ensures { result ≡ form_for wide }
{
    if wide { 2 } else { 1 }
}

// Writes the numbers before a slip's pairs, the form first, at the beginning of the bytes, and answers the place past them, where the
// pairs follow; where they do not fit, leaves the bytes as they are. The form is 2 where wide: where some number of the slip, those of
// its pairs included, is 2^32 or more.
pub fn put_head(out: &mut [u8], head: Head, wide: bool) -> Option<usize>
    ensures { (result ≡ past_put out.old 0 (writes (head_numbers (form_for wide) head []))) × (out.new ≡ put_at out.old 0 (writes (head_numbers (form_for wide) head []))) }
{
    if out.len() < head_len(head) {
        return None;
    }
    let numbers = [form(wide), head.id, head.scale, head.a, head.b, head.pairs];
    let mut at = 0;
    for n in &numbers {
        at = store_number(out, at, *n);
    }
    Some(at)
}
