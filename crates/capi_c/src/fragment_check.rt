// Whether a film has fragments, whose samples are not read: by its whole file, by its moov atom alone, and by a header at top level.
ghost use Rattle.std.specs.Prelude.{◌≡◌, eqb};
ghost use Rattle.bigendian.specs.BigEndian.{u32_at};
ghost use Rattle.structure.specs.Source.{whole_file, moov_alone};
ghost use Rattle.fragments.specs.Fragments.{moof, bit};
ghost use Rattle.hand.specs.Places.{Answers};
ghost use Rattle.host_fragments.specs.Numbers.{of_fragments};

// In two places, whether the moov has an mvex and whether the file has a moof at top level: 1 for a yes. Both are 0 with a refusal.
#[unsafe(no_mangle)]
pub extern "C" fn chaldoref_fragments(file: &[u8], places: &mut [u64]) -> u32
    ensures { Answers (of_fragments file.now whole_file) places.old result places.new }
{
    capi::fragment_check::chaldoref_fragments(file, places)
}

// The same of a moov atom alone, with the length of its file: the second place is 0, since the top level is not known.
#[unsafe(no_mangle)]
pub extern "C" fn chaldoref_moov_fragments(moov: &[u8], length: u64, places: &mut [u64]) -> u32
    ensures { Answers (of_fragments moov.now (moov_alone length)) places.old result places.new }
{
    capi::fragment_check::chaldoref_moov_fragments(moov, length, places)
}

// 1 where the atom with that header is a fragment, else 0: for each header that the walk over the top level reads.
#[unsafe(no_mangle)]
pub extern "C" fn chaldoref_is_fragment(header: &[u8]) -> u32
    ensures { result ≡ bit (eqb (u32_at header.now 4) moof) }
{
    capi::fragment_check::chaldoref_is_fragment(header)
}
