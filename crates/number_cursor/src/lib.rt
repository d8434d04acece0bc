// The cursor over a slip's numbers, document 01's "reading place": it moves past each number and counts the numbers read.
#![tactic(auto)]

ghost use Rattle.std.specs.Prelude.{◌≡◌};
ghost use Rattle.number_cursor.specs.Cursors.{number_at, moved_by};

use leb128::{Number, NumberFault, number_at};

// A place in the bytes, how many numbers were read before it, and whether numbers may be 2^32 or more.
#[derive(Clone, Copy, Debug, PartialEq, Eq)]
pub struct Cursor {
    pub at: usize,
    pub count: usize,
    pub wide: bool,
}

impl Cursor {
    // Reads the number at the cursor. A good number moves the cursor past it, and is counted; the largest count stays, which no slip reaches.
    pub fn advance(&mut self, bytes: &[u8]) -> Result<Number, NumberFault>
        ensures { (result ≡ number_at bytes.now self.old) × (self.new ≡ moved_by (number_at bytes.now self.old) self.old) }
    {
        let number = number_at(bytes, self.at, self.wide)?;
        self.at = number.next;
        self.count = self.count.saturating_add(1);
        Ok(number)
    }
}
