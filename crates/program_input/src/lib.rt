// What the programs read: the arguments that they are started with, the files that these name, and bytes up to so many.
#![tactic(auto)]

ghost use Rattle.std.specs.Prelude.{◌≡◌, ◌≤◌, ◌↔◌, length, take, IfOk, IfSome, IsNone, IsErr, IsUtf8};
ghost use Rattle.std.specs.Io.KnownBytes.{Consumes};
ghost use Rattle.program_input.specs.Arguments.{name_of, IsShort};

use std::env::FillError;
use std::rt::{Env, Files};
use std::{fmt, fs, io};

// The most bytes of a name that an argument gives.
pub const MOST_NAME: usize = 4096;

// The most bytes of a film that the programs read, but for those with a bound of their own.
pub const MOST_FILM: usize = 65536;

// An argument has more bytes than a name may have.
#[derive(Clone, Copy)]
pub struct TooLong;

impl fmt::Display for TooLong {
    fn fmt<W: fmt::Write>(&self, f: &mut fmt::Formatter<W>) -> fmt::Result {
        write!(f, "name: more than {MOST_NAME} bytes")
    }
}

// An argument: the bytes of the name that it gives.
pub type Argument<'a> = Result<&'a [u8], TooLong>;

// The name that an argument gives; no bytes where it is too long.
pub fn name_bytes<'a>(argument: Argument<'a>) -> &'a [u8]
    ensures { result.now ≡ name_of argument.entry }
{
    argument.unwrap_or(&[])
}

// The argument of a number, in the room lent; none past the last. The program's own name has the number 0.
pub fn argument_at<'a>(
    rt: &impl Env,
    i: usize,
    room: &'a mut [u8; MOST_NAME],
) -> Option<Argument<'a>>
    ensures { IfSome result IsShort }
{
    match rt.arg(i, room) {
        Ok(n) => Some(Ok(&room[..n])),
        Err(FillError::TooLong) => Some(Err(TooLong)),
        Err(FillError::NotPresent) => None,
    }
}

// The name that an argument gives. Where it is too long, a line on standard error says so.
pub fn name_given<'a>(rt: &impl Eprint, argument: Argument<'a>) -> io::Result<Option<&'a [u8]>>
    ensures name { IfOk result (λ name. IfSome name (λ bytes. bytes.now ≡ name_of argument.entry)) }
    ensures none { IfOk result (λ name. IsNone name ↔ IsErr argument.entry) }
{
    match argument {
        Ok(bytes) => Ok(Some(bytes)),
        Err(too_long) => {
            eprintln!(rt; "{too_long}")?;
            Ok(None)
        }
    }
}

// A file opened for reading, by the bytes of its name. One that is not text names no file.
pub fn open_read<R: Files>(rt: &R, name: &[u8]) -> io::Result<R::File>
    ensures { (IsUtf8 name.now → ⊥) → IsErr result }
{
    match str::from_utf8(name) {
        Ok(path) => fs::open(rt, path),
        Err(_) => Err(io::Error::from(io::ErrorKind::InvalidFilename)),
    }
}

// The file of a name, opened for reading. Where it cannot be opened, a line on standard error says so.
pub fn open_named<R: Files + Eprint>(rt: &R, name: &[u8]) -> io::Result<Option<R::File>>
    ensures { (IsUtf8 name.now → ⊥) → IfOk result (λ file. IsNone file) }
{
    match open_read(rt, name) {
        Ok(file) => Ok(Some(file)),
        Err(error) => {
            match str::from_utf8(name) {
                Ok(text) => eprintln!(rt; "{text}: {error}")?,
                Err(_) => eprintln!(rt; "a name that is not UTF-8: {error}")?,
            }
            Ok(None)
        }
    }
}

// Reads until the room is full, the input ends or a read fails, and returns how many bytes it put at the start of the room.
pub fn read_full<R: io::Read>(reader: &mut R, room: &mut [u8]) -> usize
    ensures count { result ≤ length room.new }
    ensures bytes { Consumes (R.remaining reader.old) (R.remaining reader.new) (take result room.new) }
{
    let mut done = 0;
    while done < room.len() {
        match reader.read(&mut room[done..]) {
            Ok(0) | Err(_) => break,
            Ok(n) => done += n,
        }
    }
    done
}
