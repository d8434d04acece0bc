// Compaction, for programs in C and Rust: the moov atom with the fewest entries in each stts and stsc.
ghost use Rattle.structure.specs.Source.{whole_file, moov_alone};
ghost use Rattle.compaction.specs.Compaction.{compact_moov};
ghost use Rattle.hand.specs.Places.{Fills};
ghost use Rattle.host_compaction.specs.Numbers.{of_compaction};

// Writes the moov atom of a film with its tables compact into the room, and its length into one place.
#[unsafe(no_mangle)]
pub extern "C" fn chaldoref_compact(file: &[u8], room: &mut [u8], places: &mut [u64]) -> u32
    ensures { Fills (of_compaction file.now whole_file room.old) places.old
        (compact_moov file.now) room.old result places.new room.new }
{
    capi::compacting::chaldoref_compact(file, room, places)
}

// The same of a film by its moov atom alone, with the length of its file.
#[unsafe(no_mangle)]
pub extern "C" fn chaldoref_moov_compact(
    moov: &[u8],
    length: u64,
    room: &mut [u8],
    places: &mut [u64],
) -> u32
    ensures { Fills (of_compaction moov.now (moov_alone length) room.old) places.old
        (compact_moov moov.now) room.old result places.new room.new }
{
    capi::compacting::chaldoref_moov_compact(moov, length, room, places)
}
