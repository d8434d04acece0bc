// The walk over a file's top-level atoms, header by header: the host reads up to 16 bytes at the place that it is told, and no more of the file.
#![tactic(auto)]

ghost use Rattle.std.specs.Prelude.{◌≡◌, ◌≤◌};
ghost use Rattle.top_level.specs.Steps.{within, size_ahead, one_more, start, ended, stepped};

use atoms::kinds;
use bigendian::{u32_at, u64_at};

// The longest file that has an answer.
pub const LONGEST: u64 = 9223372036854775807;

// What is known of a file before the header at `place`: its length, how many moovs were met (2 for more than one), and of the last one its place and size.
#[derive(Clone, Copy)]
pub struct Walk {
    pub length: u64,
    pub place: u64,
    pub moovs: u64,
    pub at: u64,
    pub size: u64,
}

// Read on at the walk's place; or the moov's place and size; or the number of a refusal.
#[derive(Clone, Copy)]
pub enum Next {
    Read(Walk),
    Found(u64, u64),
    Refused(u32),
}

// The size z, if it is at least `least` and no more than what remains; else 0.
fn within(least: u64, z: u64, rest: u64) -> u64
    ensures { result ≡ within least z rest }
{
    if z < least {
        return 0;
    }
    if z <= rest { z } else { 0 }
}

// The size of the atom with that header, of which the file has `rest` bytes; 0 where no whole atom begins there. The
// second promise follows from the first.
fn size_ahead(header: &[u8], rest: u64) -> u64
    ensures value { result ≡ size_ahead rest header.now }
    ensures upper_bound { result ≤ rest }
{
    if rest < 8 {
        return 0;
    }
    if header.len() < 8 {
        return 0;
    }
    let z = u32_at(header, 0);
    if z == 0 {
        return rest;
    }
    if z != 1 {
        return within(8, z as u64, rest);
    }
    if header.len() < 16 {
        return 0;
    }
    within(16, u64_at(header, 8), rest)
}

// One moov more; 2 stands for more than one.
fn one_more(moovs: u64) -> u64
    ensures { result ≡ one_more moovs }
{
    if moovs == 0 { 1 } else { 2 }
}

impl Walk {
    // Before the first atom of a file of that length.
    pub fn start(length: u64) -> Walk
        ensures { result ≡ start length }
    {
        Walk {
            length,
            place: 0,
            moovs: 0,
            at: 0,
            size: 0,
        }
    }

    // What the walk says at the file's end.
    fn end(self) -> Next
        ensures { result ≡ ended self }
    {
        if self.moovs == 1 {
            Next::Found(self.at, self.size)
        } else {
            Next::Refused(3)
        }
    }

    // One step, with the bytes at the walk's place: up to 16, fewer only where the file ends.
    pub fn step(self, header: &[u8]) -> Next
        ensures { result ≡ stepped header.now self }
    {
        if LONGEST < self.length {
            return Next::Refused(1);
        }
        if self.length <= self.place {
            return self.end();
        }
        let size = size_ahead(header, self.length - self.place);
        if size == 0 {
            return Next::Refused(2);
        }
        let mut walk = self;
        walk.place = self.place + size;
        if u32_at(header, 4) == kinds::MOOV {
            walk.moovs = one_more(self.moovs);
            walk.at = self.place;
            walk.size = size;
        }
        Next::Read(walk)
    }
}
