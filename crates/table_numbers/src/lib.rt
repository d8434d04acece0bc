// Places of tables, and other numbers held by value, as a caller in another language keeps them: one number after the other, 64 bits each.
#![tactic(auto)]

ghost use Rattle.std.specs.Prelude.{◌≡◌, ◌<◌, ◌^◌, get_or};
ghost use Rattle.table_numbers.specs.Numbers.{low_at, part_at, tables_at};

use places::Part;
use places::tables::Tables;

// The number with an index; 0 where there are no more than i.
pub fn number_at(numbers: &[u64], i: usize) -> u64
    ensures { result ≡ get_or numbers.now i 0 }
{
    numbers.get(i).copied().unwrap_or(0)
}

// The same, as a place in what is lent.
pub fn place_at(numbers: &[u64], i: usize) -> usize
    ensures { result ≡ get_or numbers.now i 0 }
{
    number_at(numbers, i) as usize
}

// The same, cut to 32 bits.
pub fn low_at(numbers: &[u64], i: usize) -> u32
    ensures { result ≡ low_at numbers.now i }
{
    (number_at(numbers, i) % 4294967296) as u32
}

// The part whose place and length begin at an index.
pub fn part_at(numbers: &[u64], i: usize) -> Part
    requires { i < 2 ^ 32 }
    ensures { result ≡ part_at numbers.now i }
{
    Part {
        at: place_at(numbers, i),
        len: place_at(numbers, i + 1),
    }
}

// The sample tables whose parts are the first twelve numbers.
pub fn tables_at(numbers: &[u64]) -> Tables
    ensures { result ≡ tables_at numbers.now }
{
    Tables {
        stts: part_at(numbers, 0),
        ctts: part_at(numbers, 2),
        stsc: part_at(numbers, 4),
        stsz: part_at(numbers, 6),
        offsets: part_at(numbers, 8),
        stss: part_at(numbers, 10),
    }
}
