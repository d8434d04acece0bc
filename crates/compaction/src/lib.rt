// A film's moov atom written with its tables compact: each stts and stsc with the fewest entries that say the same.
#![tactic(auto)]

ghost use Rattle.compaction.specs.Compaction.{Compacts};

use atoms::{body_of, kinds};
use byte_writing::put_bytes;
use compact_tree::{header_of, put_body};
use places::{Part, child_part, part_of};
use refusals::Refusal;
use structure::source::Source;

// Writes the moov atom with its tables compact into the first bytes of the room; answers its length. A refusal leaves the room as it is: everything
// is checked before the first byte is written.
pub fn compact_moov(input: &[u8], source: Source, room: &mut [u8]) -> Result<usize, Refusal>
    ensures { Compacts input.now source room.old result room.new }
{
    movie::refusal(input, source)?;
    let whole = Part {
        at: 0,
        len: input.len(),
    };
    let atom = part_of(input, child_part(input, whole, kinds::FILE, kinds::MOOV, 0));
    if room.len() < atom.len() {
        return Err(Refusal::NoRoom);
    }
    let at = put_bytes(header_of(atom), room, 0);
    Ok(put_body(body_of(atom), kinds::MOOV, 5, room, at))
}
