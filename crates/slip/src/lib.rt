// Slips, document 01's word for a receipt: which bytes of film belong to a track's media times a to b. This crate knows nothing of movies.
#![tactic(auto)]

pub mod any;

ghost use Rattle.std.specs.Prelude.{◌≡◌, false, length};
ghost use Rattle.slip.specs.Slip.{Reads, slip_in, slip_read_numbers, numbers_for, stored_for};
ghost use Rattle.slip.specs.declared.SlipError.TheVariants as SlipError;

pub use any::read_any_slip;
use number_values::{RoomNumber, fill};
pub use slip_head::{Head, head_len, put_head};
use slip_numbers::Malformed;
use slip_scan::find_slip;

// Why no slip is read: refusal 17, the slip is malformed, with the place where it goes wrong; or 16, the room is shorter than its pairs.
#[derive(Clone, Copy, Debug, PartialEq, Eq)]
pub enum SlipError {
    Malformed(usize),
    NoRoom,
}

impl From<Malformed> for SlipError {
    ghost from_gives = { λ malformed e. e ≡ SlipError.Malformed malformed.place };

    fn from(malformed: Malformed) -> SlipError {
        SlipError::Malformed(malformed.place)
    }
}

// Reads a slip into room of numbers of either width: of form 2 too where they are wide.
fn read_into<T: RoomNumber>(bytes: &[u8], room: &mut [T]) -> Result<Head, SlipError>
    ensures numbers { slip_read_numbers result ≡ numbers_for (length room.old) (slip_in T.WIDE bytes.now) }
    ensures places { room.new ≡ stored_for T.stored room.old (slip_in T.WIDE bytes.now) }
{
    let slip = find_slip(bytes, T::WIDE)?;
    let n = 2 * (slip.head.pairs as usize);
    if room.len() < n {
        return Err(SlipError::NoRoom);
    }
    fill(bytes, slip.pairs_at, room, n);
    Ok(slip.head)
}

// Reads a slip of form 1: its numbers, and its pairs in the first places of the room. A refusal leaves the room as it is.
pub fn read_slip(bytes: &[u8], room: &mut [u32]) -> Result<Head, SlipError>
    ensures { Reads false bytes.now room.old result room.new }
{
    read_into(bytes, room)
}
