// Reading a slip of either form.
ghost use Rattle.std.specs.Prelude.{true};
ghost use Rattle.slip.specs.Slip.{Reads};

use super::{SlipError, read_into};
use slip_head::Head;

// Reads a slip of form 1 or 2: its numbers, and its pairs in the first places of the room. A refusal leaves the room as it is.
pub fn read_any_slip(bytes: &[u8], room: &mut [u64]) -> Result<Head, SlipError>
    ensures { Reads true bytes.now room.old result room.new }
{
    read_into(bytes, room)
}
