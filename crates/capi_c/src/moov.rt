// The same questions put to a film by its moov atom alone, with the length of its file: the second way in. Sample bytes are not offered there, and the
// pairs of a stretch are numbers of 64 bits.
ghost use Rattle.pairs.specs.Pairs.{flat};
ghost use Rattle.track_list.specs.TrackList.{track_lines};
ghost use Rattle.structure.specs.Source.{moov_alone};
ghost use Rattle.stretch.specs.Stretches.{stretch_pairs};
ghost use Rattle.slip_writing.specs.Slips.{slip_of_stretch};
ghost use Rattle.profiles.specs.Profiles.{profile_numbers};
ghost use Rattle.movie_times.specs.Entries.{edit_numbers, edits_asked};
ghost use Rattle.hand.specs.Places.{Answers, SignedAnswers, Fills};
ghost use Rattle.hand.specs.Times.{media};
ghost use Rattle.host_tracks.specs.Numbers.{of_track_list};
ghost use Rattle.host_movie.specs.Numbers.{of_movie, of_edits};
ghost use Rattle.host_samples.specs.Numbers.{of_sample};
ghost use Rattle.host_features.specs.Numbers.{of_feature, of_peak};
ghost use Rattle.host_times.specs.Numbers.{of_sample_at, of_media_time};
ghost use Rattle.host_stretches.specs.Numbers.{of_stretch};
ghost use Rattle.host_written_slips.specs.Numbers.{of_slip_writing};
ghost use Rattle.host_profiles.specs.Numbers.{of_profile};

// Lists the tracks of a film: eight numbers for each in the room, and in one place how many tracks.
#[unsafe(no_mangle)]
pub extern "C" fn chaldoref_moov_track_list(
    moov: &[u8],
    length: u64,
    room: &mut [u32],
    places: &mut [u64],
) -> u32
    ensures { Fills (of_track_list moov.now (moov_alone length) room.old) places.old (track_lines moov.now) room.old result places.new room.new }
{
    capi::moov::chaldoref_moov_track_list(moov, length, room, places)
}

// The stored profile of a track, or for ID 0 of the movie: three numbers for each record in the room, and in one place how many records.
#[unsafe(no_mangle)]
pub extern "C" fn chaldoref_moov_profile(
    moov: &[u8],
    length: u64,
    id: u32,
    room: &mut [u32],
    places: &mut [u64],
) -> u32
    ensures { Fills (of_profile moov.now (moov_alone length) id room.old) places.old (profile_numbers moov.now id) room.old result places.new room.new }
{
    capi::moov::chaldoref_moov_profile(moov, length, id, room, places)
}

// The movie's time scale and the duration that it states, in two places.
#[unsafe(no_mangle)]
pub extern "C" fn chaldoref_moov_movie(moov: &[u8], length: u64, places: &mut [u64]) -> u32
    ensures { Answers (of_movie moov.now (moov_alone length)) places.old result places.new }
{
    capi::moov::chaldoref_moov_movie(moov, length, places)
}

// The edit list of a track: duration, media time (-1 where nothing is shown) and rate of each entry in the room, and in one place how many entries.
#[unsafe(no_mangle)]
pub extern "C" fn chaldoref_moov_edits(
    moov: &[u8],
    length: u64,
    id: u32,
    room: &mut [i64],
    places: &mut [u64],
) -> u32
    ensures { Fills (of_edits moov.now (moov_alone length) id room.old) places.old (edit_numbers (edits_asked moov.now id)) room.old result places.new room.new }
{
    capi::moov::chaldoref_moov_edits(moov, length, id, room, places)
}

// Sample n of a track, in eight places: decode time, duration, composition time, sync (1 or 0), description ID, chunk, offset, size.
#[unsafe(no_mangle)]
pub extern "C" fn chaldoref_moov_sample(
    moov: &[u8],
    length: u64,
    id: u32,
    n: u32,
    places: &mut [i64],
) -> u32
    ensures { SignedAnswers (of_sample moov.now (moov_alone length) id n) places.old result places.new }
{
    capi::moov::chaldoref_moov_sample(moov, length, id, n, places)
}

// The feature with that code of a track, in one place.
#[unsafe(no_mangle)]
pub extern "C" fn chaldoref_moov_feature(
    moov: &[u8],
    length: u64,
    id: u32,
    code: u32,
    places: &mut [u64],
) -> u32
    ensures { Answers (of_feature moov.now (moov_alone length) id code) places.old result places.new }
{
    capi::moov::chaldoref_moov_feature(moov, length, id, code, places)
}

// Where the highest rate over a second is, by the feature's code, in two places: the number of the run's first sample, and how many samples it has.
#[unsafe(no_mangle)]
pub extern "C" fn chaldoref_moov_peak(
    moov: &[u8],
    length: u64,
    id: u32,
    code: u32,
    places: &mut [u64],
) -> u32
    ensures { Answers (of_peak moov.now (moov_alone length) id code) places.old result places.new }
{
    capi::moov::chaldoref_moov_peak(moov, length, id, code, places)
}

// The number of the sample at media time t and the position of its entry in stts, in two places.
#[unsafe(no_mangle)]
pub extern "C" fn chaldoref_moov_sample_at(
    moov: &[u8],
    length: u64,
    id: u32,
    t: u32,
    places: &mut [u64],
) -> u32
    ensures { Answers (of_sample_at moov.now (moov_alone length) id t) places.old result places.new }
{
    capi::moov::chaldoref_moov_sample_at(moov, length, id, t, places)
}

// What movie time t shows, in two places: 1 and the media time, or 0 and 0 where nothing is shown.
#[unsafe(no_mangle)]
pub extern "C" fn chaldoref_moov_media_time(
    moov: &[u8],
    length: u64,
    id: u32,
    t: u32,
    places: &mut [u64],
) -> u32
    ensures { Answers (of_media_time moov.now (moov_alone length) id t) places.old result places.new }
{
    capi::moov::chaldoref_moov_media_time(moov, length, id, t, places)
}

// The stretch of a track from a to b: a pair (offset, length) for each chunk touched in the room, and in two places how many pairs and the total of bytes.
#[unsafe(no_mangle)]
pub extern "C" fn chaldoref_moov_stretch(
    moov: &[u8],
    length: u64,
    id: u32,
    a: u32,
    b: u32,
    room: &mut [u64],
    places: &mut [u64],
) -> u32
    ensures { Fills (of_stretch moov.now (moov_alone length) id a b room.old) places.old (flat (stretch_pairs moov.now id (media a) (media b))) room.old result places.new room.new }
{
    capi::moov::chaldoref_moov_stretch(moov, length, id, a, b, room, places)
}

// Writes the slip of a track's stretch from a to b into the bytes, and in one place its length.
#[unsafe(no_mangle)]
pub extern "C" fn chaldoref_moov_write_slip(
    moov: &[u8],
    length: u64,
    id: u32,
    a: u32,
    b: u32,
    out: &mut [u8],
    places: &mut [u64],
) -> u32
    ensures { Fills (of_slip_writing moov.now (moov_alone length) id a b out.old) places.old (slip_of_stretch moov.now id (media a) (media b)) out.old result places.new out.new }
{
    capi::moov::chaldoref_moov_write_slip(moov, length, id, a, b, out, places)
}
