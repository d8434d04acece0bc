// The refusals, as an enum in the order in which they are judged; their numbers are the papers'.
#![tactic(auto)]

ghost use Rattle.std.specs.Prelude.{◌≡◌};
ghost use Rattle.refusals.specs.Refusals.{number, code};

// Why a film or a question is refused. The derived order is the order of judging: each is judged where none before it applies.
#[derive(Clone, Copy, Debug, PartialEq, Eq, PartialOrd, Ord)]
pub enum Refusal {
    // 1: "the file is longer than 2,147,483,647 bytes"
    TooLong,
    // 2: "an atom's size is wrong, passes its parent's end, or 1 to 7 bytes (under 16 for a 64-bit size) remain"
    BrokenAtom,
    // 3: "an atom is absent or occurs too often"
    AtomCount,
    // 4: "a read leaf has a body whose first byte is not 0"
    UnknownVersion,
    // 5: "a read leaf or profile hasn't its size"
    WrongSize,
    // 6: "over 16 tracks, or in one track over 1,048,576 samples or chunks, 256 edits or 64 descriptions; in one profile over 64 records"
    OverLimits,
    // 7: "a track ID is 0 or occurs twice"
    TrackId,
    // 8: "a movie or media time scale is 0"
    ZeroScale,
    // 9: "sample tables contradict each other"
    Contradiction,
    // 10: "the sample durations, or a track's edit durations, total over 4,294,967,295"
    TotalTooLarge,
    // 11: "the mdhd duration is not the total of the sample durations", given "only where strict reading is asked for"
    OtherDuration,
    // 19: "data elsewhere or no such entry", "judged after 11 and before 12"
    DataElsewhere,
    // 12: "a chunk's offset plus the sizes of its samples passes the file's end"
    ChunkPastEnd,
    // 13: "an edit list is wrong"
    WrongEdits,
    // 14: "no track has that ID"
    NoTrack,
    // 15: "the sample number is not in 1 to N, or the time or stretch lies outside"
    Outside,
    // 16: "the lent room is shorter than the answer"
    NoRoom,
    // 17: "a slip is malformed"
    MalformedSlip,
    // 18: "the feature cannot be computed"
    NotComputed,
    // 20: "a thirty-third scale"
    TooManyScales,
    // 21: "a total that would reach 2^64"
    TotalOverflows,
}

impl From<Refusal> for u32 {
    fn from(refusal: Refusal) -> u32
        ensures { result ≡ number refusal }
    {
        match refusal {
            Refusal::TooLong => 1,
            Refusal::BrokenAtom => 2,
            Refusal::AtomCount => 3,
            Refusal::UnknownVersion => 4,
            Refusal::WrongSize => 5,
            Refusal::OverLimits => 6,
            Refusal::TrackId => 7,
            Refusal::ZeroScale => 8,
            Refusal::Contradiction => 9,
            Refusal::TotalTooLarge => 10,
            Refusal::OtherDuration => 11,
            Refusal::DataElsewhere => 19,
            Refusal::ChunkPastEnd => 12,
            Refusal::WrongEdits => 13,
            Refusal::NoTrack => 14,
            Refusal::Outside => 15,
            Refusal::NoRoom => 16,
            Refusal::MalformedSlip => 17,
            Refusal::NotComputed => 18,
            Refusal::TooManyScales => 20,
            Refusal::TotalOverflows => 21,
        }
    }
}

// The number of the refusal that a result holds; 0 where it holds none.
pub fn code<T>(answer: &Result<T, Refusal>) -> u32
    ensures { result ≡ code answer.now }
{
    match answer {
        Ok(_) => 0,
        Err(refusal) => u32::from(*refusal),
    }
}
