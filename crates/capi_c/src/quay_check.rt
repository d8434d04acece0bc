// Whether a film keeps the quay film profile, by its whole file and by its moov atom alone.
ghost use Rattle.structure.specs.Source.{whole_file, moov_alone};
ghost use Rattle.hand.specs.Places.{Answers};
ghost use Rattle.host_quay.specs.Numbers.{of_quay};

// The lowest rule that the film breaks and the ID of the first track that breaks it, in two places; the ID is 0 for the first rule.
// Both are 0 where the film keeps the profile, and with a refusal.
#[unsafe(no_mangle)]
pub extern "C" fn chaldoref_check_quay(file: &[u8], places: &mut [u64]) -> u32
    ensures { Answers (of_quay file.now whole_file) places.old result places.new }
{
    capi::quay_check::chaldoref_check_quay(file, places)
}

// The same of a moov atom alone, with the length of its file.
#[unsafe(no_mangle)]
pub extern "C" fn chaldoref_moov_check_quay(moov: &[u8], length: u64, places: &mut [u64]) -> u32
    ensures { Answers (of_quay moov.now (moov_alone length)) places.old result places.new }
{
    capi::quay_check::chaldoref_moov_check_quay(moov, length, places)
}
