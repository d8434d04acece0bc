// A film return as 83 numbers, in the order of its fields, for a caller in another language.
#![tactic(auto)]

ghost use Rattle.std.specs.Prelude.{◌≡◌, map, ◌+◌, ◌≤◌, ◌<◌, ◌^◌, length, take, drop};
ghost use Rattle.std.proofs.lemmas.List.Edits.{sets};
ghost use Rattle.return_numbers.specs.Numbers.{low, return_in, PutsReturn};

use return_totals::FilmReturn;

// How many they are.
pub const NUMBERS: usize = 83;

// Fills the room with the numbers from an index on.
fn copy_from(numbers: &[u64], from: usize, room: &mut [u64])
    requires { from + length room.old ≤ length numbers.now }
    ensures { room.new ≡ take (length room.old) (drop from numbers.now) }
{
    let mut i: usize = 0;
    while i < room.len() {
        room[i] = numbers[from + i];
        i += 1;
    }
}

// The same, each number cut to 32 bits.
fn copy_low(numbers: &[u64], from: usize, room: &mut [u32])
    requires { from + length room.old ≤ length numbers.now }
    ensures { room.new ≡ map low (take (length room.old) (drop from numbers.now)) }
{
    let mut i: usize = 0;
    while i < room.len() {
        room[i] = (numbers[from + i] % 4294967296) as u32;
        i += 1;
    }
}

// The return that the first 83 numbers are: one too large for its field is cut to the field's width.
pub fn return_in(numbers: &[u64]) -> FilmReturn
    requires { 83 ≤ length numbers.now }
    ensures { result ≡ return_in numbers.now }
{
    let mut refused = [0u64; 14];
    copy_from(numbers, 1, &mut refused);
    let mut scales = [0u32; 32];
    copy_low(numbers, 19, &mut scales);
    let mut units = [0u64; 32];
    copy_from(numbers, 51, &mut units);
    FilmReturn {
        accepted: numbers[0],
        refused,
        tracks: numbers[15],
        samples: numbers[16],
        bytes: numbers[17],
        count: numbers[18] as usize,
        scales,
        units,
    }
}

// Puts values into the room, from an index on.
fn put(values: &[u64], room: &mut [u64], at: usize)
    requires { at + length values.now ≤ length room.old }
    ensures { room.new ≡ sets room.old at values.now }
{
    let mut i: usize = 0;
    while i < values.len() {
        room[at + i] = values[i];
        i += 1;
    }
}

fn wide(x: u32) -> u64
    ensures { result ≡ x }
{
    x as u64
}

// The same, of values of 32 bits.
fn put_low(values: &[u32], room: &mut [u64], at: usize)
    requires { at + length values.now ≤ length room.old }
    ensures { room.new ≡ sets room.old at values.now }
{
    let mut i: usize = 0;
    while i < values.len() {
        room[at + i] = wide(values[i]);
        i += 1;
    }
}

// Puts the numbers of a return into the first 83 places.
pub fn put_return(r: FilmReturn, room: &mut [u64])
    requires { 83 ≤ length room.old }
    ensures { PutsReturn r room.old room.new }
{
    let refused = r.refused;
    let scales = r.scales;
    let units = r.units;
    put(&[r.accepted], room, 0);
    put(&refused, room, 1);
    put(&[r.tracks, r.samples, r.bytes, r.count as u64], room, 15);
    put_low(&scales, room, 19);
    put(&units, room, 51);
}
