// The questions of documents 01 and 02 for programs in C and Rust: numbers and slices alone. Each function answers the number of a refusal, or 0, and
// puts the values into lent places, in the order of the documents. Each is one call: a function that is exported must stand in this crate.
#![tactic(auto)]

pub mod checks;
pub mod compacting;
pub mod filing;
pub mod fragment_check;
pub mod handles;
pub mod index;
pub mod moov;
pub mod quay_check;
pub mod steps;
pub mod version;

ghost use Rattle.std.specs.Prelude.{true, false};
ghost use Rattle.slip.specs.Slip.{slip_in};
ghost use Rattle.pairs.specs.Pairs.{flat};
ghost use Rattle.structure.specs.Source.{whole_file};
ghost use Rattle.track_list.specs.TrackList.{track_lines};
ghost use Rattle.stretch.specs.Stretches.{stretch_pairs};
ghost use Rattle.slip_writing.specs.Slips.{slip_of_stretch};
ghost use Rattle.profiles.specs.Profiles.{profile_numbers};
ghost use Rattle.movie_times.specs.Entries.{edit_numbers, edits_asked};
ghost use Rattle.hand.specs.Places.{Answers, SignedAnswers, Fills};
ghost use Rattle.hand.specs.Times.{media};
ghost use Rattle.host_tracks.specs.Numbers.{of_track_list};
ghost use Rattle.host_top_level.specs.Numbers.{of_step};
ghost use Rattle.host_movie.specs.Numbers.{of_movie, of_edits};
ghost use Rattle.host_samples.specs.Numbers.{of_sample, of_sample_bytes};
ghost use Rattle.host_features.specs.Numbers.{of_feature, of_peak};
ghost use Rattle.host_times.specs.Numbers.{of_sample_at, of_media_time};
ghost use Rattle.host_stretches.specs.Numbers.{of_stretch};
ghost use Rattle.host_written_slips.specs.Numbers.{of_slip_writing};
ghost use Rattle.host_profiles.specs.Numbers.{of_profile};
ghost use Rattle.host_slips.specs.Numbers.{of_slip_reading, pairs_of};

use host_any_slips::hand_read_any_slip;
use host_features::{hand_feature, hand_peak};
use host_movie::{hand_edits, hand_movie};
use host_profiles::hand_profile;
use host_samples::{hand_sample, hand_sample_bytes};
use host_slips::hand_read_slip;
use host_stretches::hand_stretch;
use host_times::{hand_media_time, hand_sample_at};
use host_top_level::hand_step;
use host_tracks::hand_track_list;
use host_written_slips::hand_written_slip;
use structure::source::Source;

// Lists the tracks of a film: eight numbers for each in the room, and in one place how many tracks.
#[unsafe(no_mangle)]
pub extern "C" fn chaldoref_track_list(file: &[u8], room: &mut [u32], places: &mut [u64]) -> u32
    ensures { Fills (of_track_list file.now whole_file room.old) places.old (track_lines file.now) room.old result places.new room.new }
{
    hand_track_list(file, Source::whole(), room, places)
}

// The stored profile of a track, or for ID 0 of the movie: three numbers for each record in the room, and in one place how many records.
#[unsafe(no_mangle)]
pub extern "C" fn chaldoref_profile(
    file: &[u8],
    id: u32,
    room: &mut [u32],
    places: &mut [u64],
) -> u32
    ensures { Fills (of_profile file.now whole_file id room.old) places.old (profile_numbers file.now id) room.old result places.new room.new }
{
    hand_profile(file, Source::whole(), id, room, places)
}

// One step of the walk over a file's top-level atoms, with up to 16 bytes of the file at the place told. In six places, where the walk goes on: the file's
// length, where to read next, moovs met, the place and the size of the last one, and 0; where the moov is found: 0, 0, 1, its place, its size, and 1.
// Before the first step all but the length are 0.
#[unsafe(no_mangle)]
pub extern "C" fn chaldoref_top_level_step(header: &[u8], places: &mut [u64]) -> u32
    ensures { Answers (of_step header.now places.old) places.old result places.new }
{
    hand_step(header, places)
}

// The movie's time scale and the duration that it states, in two places.
#[unsafe(no_mangle)]
pub extern "C" fn chaldoref_movie(file: &[u8], places: &mut [u64]) -> u32
    ensures { Answers (of_movie file.now whole_file) places.old result places.new }
{
    hand_movie(file, Source::whole(), places)
}

// The edit list of a track: duration, media time (-1 where nothing is shown) and rate of each entry in the room, and in one place how many entries.
#[unsafe(no_mangle)]
pub extern "C" fn chaldoref_edits(file: &[u8], id: u32, room: &mut [i64], places: &mut [u64]) -> u32
    ensures { Fills (of_edits file.now whole_file id room.old) places.old (edit_numbers (edits_asked file.now id)) room.old result places.new room.new }
{
    hand_edits(file, Source::whole(), id, room, places)
}

// Sample n of a track, in eight places: decode time, duration, composition time, sync (1 or 0), description ID, chunk, offset, size.
#[unsafe(no_mangle)]
pub extern "C" fn chaldoref_sample(file: &[u8], id: u32, n: u32, places: &mut [i64]) -> u32
    ensures { SignedAnswers (of_sample file.now whole_file id n) places.old result places.new }
{
    hand_sample(file, Source::whole(), id, n, places)
}

// The bytes of sample n, in two places: where they begin in the file, and how many they are.
#[unsafe(no_mangle)]
pub extern "C" fn chaldoref_sample_bytes(file: &[u8], id: u32, n: u32, places: &mut [u64]) -> u32
    ensures { Answers (of_sample_bytes file.now id n) places.old result places.new }
{
    hand_sample_bytes(file, id, n, places)
}

// The feature with that code of a track, in one place.
#[unsafe(no_mangle)]
pub extern "C" fn chaldoref_feature(file: &[u8], id: u32, code: u32, places: &mut [u64]) -> u32
    ensures { Answers (of_feature file.now whole_file id code) places.old result places.new }
{
    hand_feature(file, Source::whole(), id, code, places)
}

// Where the highest rate over a second is, by the feature's code, in two places: the number of the run's first sample, and how many samples it has.
#[unsafe(no_mangle)]
pub extern "C" fn chaldoref_peak(file: &[u8], id: u32, code: u32, places: &mut [u64]) -> u32
    ensures { Answers (of_peak file.now whole_file id code) places.old result places.new }
{
    hand_peak(file, Source::whole(), id, code, places)
}

// The number of the sample at media time t and the position of its entry in stts, in two places.
#[unsafe(no_mangle)]
pub extern "C" fn chaldoref_sample_at(file: &[u8], id: u32, t: u32, places: &mut [u64]) -> u32
    ensures { Answers (of_sample_at file.now whole_file id t) places.old result places.new }
{
    hand_sample_at(file, Source::whole(), id, t, places)
}

// What movie time t shows, in two places: 1 and the media time, or 0 and 0 where nothing is shown.
#[unsafe(no_mangle)]
pub extern "C" fn chaldoref_media_time(file: &[u8], id: u32, t: u32, places: &mut [u64]) -> u32
    ensures { Answers (of_media_time file.now whole_file id t) places.old result places.new }
{
    hand_media_time(file, Source::whole(), id, t, places)
}

// The stretch of a track from a to b: a pair (offset, length) for each chunk touched in the room, and in two places how many pairs and the total of bytes.
#[unsafe(no_mangle)]
pub extern "C" fn chaldoref_stretch(
    file: &[u8],
    id: u32,
    a: u32,
    b: u32,
    room: &mut [u32],
    places: &mut [u64],
) -> u32
    ensures { Fills (of_stretch file.now whole_file id a b room.old) places.old (flat (stretch_pairs file.now id (media a) (media b))) room.old result places.new room.new }
{
    hand_stretch(file, id, a, b, room, places)
}

// Writes the slip of a track's stretch from a to b into the bytes, and in one place its length.
#[unsafe(no_mangle)]
pub extern "C" fn chaldoref_write_slip(
    file: &[u8],
    id: u32,
    a: u32,
    b: u32,
    out: &mut [u8],
    places: &mut [u64],
) -> u32
    ensures { Fills (of_slip_writing file.now whole_file id a b out.old) places.old (slip_of_stretch file.now id (media a) (media b)) out.old result places.new out.new }
{
    hand_written_slip(file, Source::whole(), id, a, b, out, places)
}

// Reads a slip: its pairs in the room, and in six places track ID, scale, a, b, how many pairs, and 0; or zeros and, with refusal 17, the place where the slip goes wrong.
#[unsafe(no_mangle)]
pub extern "C" fn chaldoref_read_slip(bytes: &[u8], room: &mut [u32], places: &mut [u64]) -> u32
    ensures { Fills (of_slip_reading false bytes.now room.old) places.old (pairs_of (slip_in false bytes.now)) room.old result places.new room.new }
{
    hand_read_slip(bytes, room, places)
}

// Reads a slip of either form, with numbers of 64 bits: its pairs in the room, and the six places as above.
#[unsafe(no_mangle)]
pub extern "C" fn chaldoref_read_any_slip(bytes: &[u8], room: &mut [u64], places: &mut [u64]) -> u32
    ensures { Fills (of_slip_reading true bytes.now room.old) places.old (pairs_of (slip_in true bytes.now)) room.old result places.new room.new }
{
    hand_read_any_slip(bytes, room, places)
}
