// The atoms 'asks' of a set: after the header the number of a question, three numbers that belong to the whole line, and then a number for each answer.
use bigendian::u32_at;

pub const ASKS: u32 = 0x61736b73;

pub const STTS_COUNTS: u32 = 1;

pub const CTTS_COUNTS: u32 = 2;

pub const TOTALS: u32 = 3;

pub const TIMING_OF: u32 = 4;

pub const SAMPLE_AT: u32 = 5;

pub const SHIFT_AT: u32 = 6;

pub const SIZE_OF: u32 = 7;

pub const BYTES_BETWEEN: u32 = 8;

pub const SYNCS_AGREE: u32 = 9;

pub const IS_SYNC: u32 = 10;

pub const DEALS_BY_DESCRIPTIONS: u32 = 11;

pub const DEALS_BY_SAMPLES: u32 = 12;

pub const LOCATE: u32 = 13;

pub const OFFSET_AT: u32 = 14;

pub const CHUNK_OFFSET: u32 = 15;

pub const ENDS_WITHIN: u32 = 16;

pub const EDITS_TOTAL: u32 = 17;

pub const EDITS_OK: u32 = 18;

pub const MEDIA_AT: u32 = 19;

// A question, and the numbers of the whole line: where the sum of sizes begins; the number of samples dealt, or of descriptions; or the media's scale, the
// movie's, and the total of the durations.
#[derive(Clone, Copy)]
pub struct Ask {
    pub question: u32,
    pub a: u32,
    pub b: u32,
    pub c: u32,
}

// Where the numbers of the answers begin.
pub const HEAD: usize = 24;

pub fn ask_in(atom: &[u8]) -> Ask {
    Ask {
        question: u32_at(atom, 8),
        a: u32_at(atom, 12),
        b: u32_at(atom, 16),
        c: u32_at(atom, 20),
    }
}
