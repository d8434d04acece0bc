// Bytes read until the input ends: a film from the file of a name, or the names themselves.
ghost use Rattle.std.specs.Prelude.{◌≡◌, ◌≤◌, length};

use program_input::open_read;
use std::io;
use std::rt::Files;

// How many bytes stand in the room; or why a read failed, or that there are more than the room takes.
#[derive(Clone, Copy)]
pub struct Read {
    pub failure: Option<io::ErrorKind>,
    pub longer: bool,
    pub count: usize,
}

// One read into a part.
fn read_some<R: io::Read>(reader: &mut R, part: &mut [u8]) -> Read
    ensures { result.count ≤ length part.new }
{
    match reader.read(part) {
        Ok(count) => Read {
            failure: None,
            longer: false,
            count,
        },
        Err(error) => failed(error),
    }
}

// Nothing, since a read failed or a file could not be opened.
fn failed(error: io::Error) -> Read
    ensures { result.count ≡ 0 }
{
    Read {
        failure: Some(error.kind()),
        longer: false,
        count: 0,
    }
}

// Reads until the room is full or the input ends, whatever is given at a time. A read that fails is told from an end, as one of a directory.
fn fill<R: io::Read>(reader: &mut R, room: &mut [u8]) -> Read
    ensures { result.count ≤ length room.old }
{
    let mut n: usize = 0;
    let mut failure = None;
    while n < room.len() {
        let got = read_some(reader, &mut room[n..]);
        let k = got.count;
        failure = got.failure;
        if k == 0 {
            break;
        }
        n += k;
    }
    Read {
        failure,
        longer: false,
        count: n,
    }
}

// Reads all bytes into the room.
pub fn read_from<R: io::Read>(reader: &mut R, room: &mut [u8]) -> Read
    ensures { result.count ≤ length room.old }
{
    let read = fill(reader, room);
    if read.count < room.len() {
        return read;
    }
    let mut byte = [0u8; 1];
    let more = fill(reader, &mut byte);
    Read {
        failure: more.failure,
        longer: 0 < more.count,
        count: read.count,
    }
}

// Reads a file whole, into room for as many bytes as it may have. An empty name, one with a zero byte and one that is no text name no file.
pub fn read_named(rt: &impl Files, name: &[u8], room: &mut [u8]) -> Read
    ensures { result.count ≤ length room.old }
{
    match open_read(rt, name) {
        Ok(mut file) => read_from(&mut file, room),
        Err(error) => failed(error),
    }
}
