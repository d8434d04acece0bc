// A place in stss: where the numbers begin that are above those of the samples passed.
ghost use Rattle.std.specs.Prelude.{◌≡◌};
ghost use Rattle.positions.specs.Syncs.{sync_place, sync_step};

use super::moving::Moving;
use bigendian::{after, u32_at};

// Before the first number above an index.
pub fn sync_seek(stss: &[u8], index: u32) -> usize
    ensures { result ≡ sync_place stss.now index }
{
    let mut at = Moving::HEAD;
    loop {
        let t = after(stss, at);
        if t.len() < Moving::WORD {
            return at;
        }
        if index < u32_at(t, 0) {
            return at;
        }
        at += Moving::WORD;
    }
}

// Whether a number stands at a place, and the place past it if so.
#[derive(Clone, Copy)]
pub struct SyncStep {
    pub listed: bool,
    pub at: usize,
}

pub fn sync_step(stss: &[u8], at: usize, number: u32) -> SyncStep
    ensures { result ≡ sync_step stss.now at number }
{
    let t = after(stss, at);
    if t.len() < Moving::WORD {
        return SyncStep { listed: false, at };
    }
    if u32_at(t, 0) != number {
        return SyncStep { listed: false, at };
    }
    SyncStep {
        listed: true,
        at: at + Moving::WORD,
    }
}
