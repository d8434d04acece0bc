// Whether a film has fragments. Samples in fragments are not read, so a film that has them is not read whole.
#![tactic(auto)]

ghost use Rattle.std.specs.Prelude.{◌≡◌, ltb, eqb};
ghost use Rattle.bigendian.specs.BigEndian.{u32_at};
ghost use Rattle.atoms.specs.Atoms.{count_in};
ghost use Rattle.places.specs.Places.{part_in};
ghost use Rattle.fragments.specs.Fragments.{moof, TellsFragments};

use atoms::kinds;
use bigendian::u32_at;
use places::{Part, child_part, moov_part, part_of};
use refusals::Refusal;
use structure::source::Source;

// The type of a fragment at top level, and of the atom in moov that announces fragments.
const MOOF: u32 = 0x6d6f6f66;

const MVEX: u32 = 0x6d766578;

// Whether the moov has an mvex, and whether the file has a moof at top level.
#[derive(Clone, Copy)]
pub struct FoundFragments {
    pub extended: bool,
    pub fragmented: bool,
}

// Whether a body, a part of the input, has a child of that kind.
fn has_child(lent: &[u8], body: Part, parent: u32, kind: u32) -> bool
    ensures { result ≡ ltb 0 (count_in parent kind (part_in lent.now body)) }
{
    let child = child_part(lent, body, parent, kind, 0);
    part_of(lent, child).len() != 0
}

// Whether a film has fragments. Of a moov alone the top level is not known: `is_fragment` tells it header by header.
pub fn fragments(lent: &[u8], source: Source) -> Result<FoundFragments, Refusal>
    ensures { TellsFragments lent.now source result }
{
    movie::refusal(lent, source)?;
    let extended = has_child(lent, moov_part(lent), kinds::MOOV, MVEX);
    if source.alone {
        return Ok(FoundFragments {
            extended,
            fragmented: false,
        });
    }
    let file = Part {
        at: 0,
        len: lent.len(),
    };
    Ok(FoundFragments {
        extended,
        fragmented: has_child(lent, file, kinds::FILE, MOOF),
    })
}

// Whether the atom with that header is a fragment, for a walk over the top level. Of fewer than 8 bytes the answer is no.
pub fn is_fragment(header: &[u8]) -> bool
    ensures { result ≡ eqb (u32_at header.now 4) moof }
{
    u32_at(header, 4) == MOOF
}
