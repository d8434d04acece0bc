// Whether a track's own profile is true, for programs in C and Rust.
ghost use Rattle.structure.specs.Source.{whole_file, moov_alone};
ghost use Rattle.hand.specs.Places.{Answers};
ghost use Rattle.host_profile_checks.specs.Numbers.{of_profile_check};

// In one place 0 where the stored profile of a track is true, else the place of the first record at fault, from 1.
#[unsafe(no_mangle)]
pub extern "C" fn chaldoref_check_profile(file: &[u8], id: u32, places: &mut [u64]) -> u32
    ensures { Answers (of_profile_check file.now whole_file id) places.old result places.new }
{
    capi::checks::chaldoref_check_profile(file, id, places)
}

// The same of a film by its moov atom alone, with the length of its file.
#[unsafe(no_mangle)]
pub extern "C" fn chaldoref_moov_check_profile(
    moov: &[u8],
    length: u64,
    id: u32,
    places: &mut [u64],
) -> u32
    ensures { Answers (of_profile_check moov.now (moov_alone length) id) places.old result places.new }
{
    capi::checks::chaldoref_moov_check_profile(moov, length, id, places)
}
