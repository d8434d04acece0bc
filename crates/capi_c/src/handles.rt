// A track opened once: its handle is 19 numbers in lent places, and the questions by it judge no film and walk over no atoms. The handle's order: place and
// length of stts, ctts, stsc, stsz, the chunk offsets, stss and elst, then samples, chunks, media scale, movie scale and the total of the durations.
ghost use Rattle.structure.specs.Source.{whole_file, moov_alone};
ghost use Rattle.host_opened.specs.Hands.{HandsOpening, HandsSample, HandsNumber, HandsTime};
ghost use Rattle.host_opened_stretches.specs.Hands.{HandsStretch};
ghost use Rattle.host_opened_steps.specs.Hands.{HandsStartBy};

// Opens a track: its handle in 19 places.
#[unsafe(no_mangle)]
pub extern "C" fn chaldoref_open(file: &[u8], id: u32, handle: &mut [u64]) -> u32
    ensures { HandsOpening file.now whole_file id handle.old result handle.new }
{
    capi::handles::chaldoref_open(file, id, handle)
}

// The same of a film by its moov atom alone, with the length of its file.
#[unsafe(no_mangle)]
pub extern "C" fn chaldoref_moov_open(moov: &[u8], length: u64, id: u32, handle: &mut [u64]) -> u32
    ensures { HandsOpening moov.now (moov_alone length) id handle.old result handle.new }
{
    capi::handles::chaldoref_moov_open(moov, length, id, handle)
}

// Sample n by a handle, in eight places; `lent` is what the track was opened in.
#[unsafe(no_mangle)]
pub extern "C" fn chaldoref_opened_sample(
    lent: &[u8],
    handle: &[u64],
    n: u32,
    places: &mut [i64],
) -> u32
    ensures { HandsSample lent.now handle.now n places.old result places.new }
{
    capi::handles::chaldoref_opened_sample(lent, handle, n, places)
}

// The number of the sample at media time t and the position of its entry in stts, by a handle, in two places.
#[unsafe(no_mangle)]
pub extern "C" fn chaldoref_opened_sample_at(
    lent: &[u8],
    handle: &[u64],
    t: u32,
    places: &mut [u64],
) -> u32
    ensures { HandsNumber lent.now handle.now t places.old result places.new }
{
    capi::handles::chaldoref_opened_sample_at(lent, handle, t, places)
}

// What movie time t shows, by a handle, in two places: 1 and the media time, or 0 and 0 where nothing is shown.
#[unsafe(no_mangle)]
pub extern "C" fn chaldoref_opened_media_time(
    lent: &[u8],
    handle: &[u64],
    t: u32,
    places: &mut [u64],
) -> u32
    ensures { HandsTime lent.now handle.now t places.old result places.new }
{
    capi::handles::chaldoref_opened_media_time(lent, handle, t, places)
}

// The stretch from a to b by a handle: a pair (offset, length) for each chunk touched in the room, and in two places how many pairs and the total of bytes.
#[unsafe(no_mangle)]
pub extern "C" fn chaldoref_opened_stretch(
    lent: &[u8],
    handle: &[u64],
    a: u32,
    b: u32,
    room: &mut [u64],
    places: &mut [u64],
) -> u32
    ensures { HandsStretch lent.now handle.now a b room.old places.old result room.new places.new }
{
    capi::handles::chaldoref_opened_stretch(lent, handle, a, b, room, places)
}

// A position before sample n by a handle, in 29 places; `lent` is what the track was opened in, and what the steps are asked with.
#[unsafe(no_mangle)]
pub extern "C" fn chaldoref_opened_step_start(
    lent: &[u8],
    handle: &[u64],
    n: u32,
    stepper: &mut [u64],
) -> u32
    ensures { HandsStartBy lent.now handle.now n stepper.old result stepper.new }
{
    capi::handles::chaldoref_opened_step_start(lent, handle, n, stepper)
}
