// The sample descriptions of an stsd, and the greatest picture that they describe.
#![tactic(auto)]

ghost use Rattle.std.specs.Prelude.{◌≡◌, max, length};
ghost use Rattle.descriptions.specs.Descriptions.{descriptions, picture_size};

use bigendian::{after, u16_at};
use leaves::entry_size;

// How many descriptions there are, each of at least so many bytes; none without stsd.
pub fn description_count(stsd: &[u8], least: usize) -> usize
    ensures { result ≡ length (descriptions least stsd.now) }
{
    let part = after(stsd, 16);
    let mut t = part;
    let mut count: usize = 0;
    loop {
        let z = entry_size(t, least);
        if z == 0 {
            return count;
        }
        count += 1;
        t = &t[z..];
    }
}

// A width and a height, which need not be of one description.
#[derive(Clone, Copy)]
pub struct PictureSize {
    pub width: u16,
    pub height: u16,
}

// The greatest width and the greatest height of the descriptions in a track of pictures; 0 and 0 where there are none.
pub fn greatest_size(stsd: &[u8]) -> PictureSize
    ensures { result ≡ picture_size stsd.now }
{
    let part = after(stsd, 16);
    let mut t = part;
    let mut width: u16 = 0;
    let mut height: u16 = 0;
    loop {
        let z = entry_size(t, 36);
        if z == 0 {
            return PictureSize { width, height };
        }
        let d = &t[..z];
        width = width.max(u16_at(d, 32));
        height = height.max(u16_at(d, 34));
        t = &t[z..];
    }
}
