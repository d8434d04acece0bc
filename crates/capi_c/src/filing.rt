// The film return, for programs in C and Rust. Its state is 83 numbers in lent places: accepted, 14 refused, tracks, samples, bytes, how many scales
// are held, 32 scales and the total of each. Zeros are the empty return.
ghost use Rattle.structure.specs.Source.{whole_file, moov_alone};
ghost use Rattle.host_film_return.specs.Hands.{FilesNumbers, JoinsNumbers};

// Adds a film to the return. 20 and 21 leave the numbers as they are, and so does 16 for fewer than 83.
#[unsafe(no_mangle)]
pub extern "C" fn chaldoref_film_return(file: &[u8], totals: &mut [u64]) -> u32
    ensures { FilesNumbers file.now whole_file totals.old result totals.new }
{
    capi::filing::chaldoref_film_return(file, totals)
}

// The same of a film by its moov atom alone, with the length of its file.
#[unsafe(no_mangle)]
pub extern "C" fn chaldoref_moov_film_return(moov: &[u8], length: u64, totals: &mut [u64]) -> u32
    ensures { FilesNumbers moov.now (moov_alone length) totals.old result totals.new }
{
    capi::filing::chaldoref_moov_film_return(moov, length, totals)
}

// Joins another return to the return: its scales that are not there yet go last, in their order. 20 and 21 leave the numbers as they are, and so does
// 16 for fewer than 83 in either.
#[unsafe(no_mangle)]
pub extern "C" fn chaldoref_join_returns(more: &[u64], totals: &mut [u64]) -> u32
    ensures { JoinsNumbers more.now totals.old result totals.new }
{
    capi::filing::chaldoref_join_returns(more, totals)
}
