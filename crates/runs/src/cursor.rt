// A place in a table of runs, by value.
ghost use Rattle.std.specs.Prelude.{◌≡◌, ◌-◌};
ghost use Rattle.runs.specs.Cursors.{start_run, readied_run, past_run};

use bigendian::{after, u32_at};

// How many samples remain of a run, the number that each of them has, and where the entries not yet read begin.
#[derive(Clone, Copy)]
pub struct RunCursor {
    pub at: usize,
    pub count: u32,
    pub each: u32,
}

impl RunCursor {
    // The bytes of a table before its entries, and of an entry.
    pub const HEAD: usize = 16;

    pub const ENTRY: usize = 8;
}

// Before the first entry.
pub fn run_start() -> RunCursor
    ensures { result ≡ start_run }
{
    RunCursor {
        at: RunCursor::HEAD,
        count: 0,
        each: 0,
    }
}

// Entries are read until a sample remains, if there is one.
pub fn run_ready(table: &[u8], c: RunCursor) -> RunCursor
    ensures { result ≡ readied_run table.now c }
{
    let mut r = c;
    while r.count == 0 {
        let at = r.at;
        let t = after(table, at);
        if t.len() < RunCursor::ENTRY {
            return r;
        }
        r = RunCursor {
            at: at + RunCursor::ENTRY,
            count: u32_at(t, 0),
            each: u32_at(t, 4),
        };
    }
    r
}

// Past some samples of the run.
pub fn run_pass(c: RunCursor, passed: u32) -> RunCursor
    ensures { result ≡ past_run passed c }
{
    RunCursor {
        at: c.at,
        count: c.count.saturating_sub(passed),
        each: c.each,
    }
}
