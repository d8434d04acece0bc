// Stepping through a track, for programs in C and Rust. A position is 29 numbers in lent places: they are handed back as they are, with the bytes that the
// position was started on.
ghost use Rattle.structure.specs.Source.{whole_file, moov_alone};
ghost use Rattle.host_step_starts.specs.Hands.{HandsStart};
ghost use Rattle.host_steps.specs.Hands.{HandsStep, HandsSteps};

// A position before sample n of a track, in 29 places.
#[unsafe(no_mangle)]
pub extern "C" fn chaldoref_step_start(file: &[u8], id: u32, n: u32, stepper: &mut [u64]) -> u32
    ensures { HandsStart file.now whole_file id n stepper.old result stepper.new }
{
    capi::steps::chaldoref_step_start(file, id, n, stepper)
}

// The same of a film by its moov atom alone, with the length of its file.
#[unsafe(no_mangle)]
pub extern "C" fn chaldoref_moov_step_start(
    moov: &[u8],
    length: u64,
    id: u32,
    n: u32,
    stepper: &mut [u64],
) -> u32
    ensures { HandsStart moov.now (moov_alone length) id n stepper.old result stepper.new }
{
    capi::steps::chaldoref_moov_step_start(moov, length, id, n, stepper)
}

// The next sample in nine places, 1 and its eight values as of `chaldoref_sample`, and the position past it; or nine zeros where there is none, and the
// position stays.
#[unsafe(no_mangle)]
pub extern "C" fn chaldoref_step(lent: &[u8], stepper: &mut [u64], places: &mut [i64]) -> u32
    ensures { HandsStep lent.now stepper.old places.old result stepper.new places.new }
{
    capi::steps::chaldoref_step(lent, stepper, places)
}

// The next samples in the room, eight values each, as many as it holds or as are left; in one place how many, and the position past them.
#[unsafe(no_mangle)]
pub extern "C" fn chaldoref_steps(
    lent: &[u8],
    stepper: &mut [u64],
    room: &mut [i64],
    places: &mut [u64],
) -> u32
    ensures { HandsSteps lent.now stepper.old room.old places.old result stepper.new room.new places.new }
{
    capi::steps::chaldoref_steps(lent, stepper, room, places)
}
