// The places in all tables of a track before the sample with an index, whatever the tables are.
#![tactic(auto)]

ghost use Rattle.std.specs.Prelude.{◌≡◌, ◌<◌, ◌^◌, length};
ghost use Rattle.position_seeks.specs.Seeks.{sought_moving};

use bigendian::u32_at;
use positions::dealt::dealt_seek;
use positions::moving::Moving;
use positions::run::run_seek;
use positions::sync::sync_seek;
use runs::timing_of;

// Each table is sought in by itself. The length is that of any table of an accepted film.
pub fn moving_seek(
    stts: &[u8],
    ctts: &[u8],
    stsc: &[u8],
    stsz: &[u8],
    offsets: &[u8],
    stss: &[u8],
    index: u32,
) -> Moving
    requires { length stsc.now < 2 ^ 32 }
    ensures { result ≡ sought_moving (record { stts = stts.now; ctts = ctts.now; stsc = stsc.now; stsz = stsz.now; offsets = offsets.now; stss = stss.now }) index }
{
    let timing = timing_of(stts, index);
    let times = run_seek(stts, index);
    let shifts = run_seek(ctts, index);
    let dealt = dealt_seek(stsc, stsz, offsets, u32_at(offsets, 12), index);
    Moving {
        index,
        decode: timing.start,
        times,
        shifts,
        dealt,
        sync: sync_seek(stss, index),
    }
}
