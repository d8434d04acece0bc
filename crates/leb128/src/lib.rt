// Numbers in groups of seven bits, lowest group first, the top bit set on all but the last, in the fewest bytes: unsigned LEB128.
#![tactic(auto)]

pub mod number;
pub mod write;

pub use number::{Number, NumberFault, number_at};
pub use write::{number_len, put_number, store_number};
