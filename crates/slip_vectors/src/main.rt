// Puts cases to the crates leb128 and slip, and writes a line for each with the whole answer. Each file that its arguments name is a case. The cases and
// the lines are those that the reference in host/reference writes.
#![tactic(auto)]

mod reading;
mod show;
mod writing;

use bigendian::{after, u32_at, u64_at};
use program_input::{Argument, MOST_NAME, argument_at, name_given, open_named, read_full};
use std::io;
use std::rt::Files;

// The kinds of cases: a number below 2^32 read, a slip of form 1 read, a number written, a slip written, a slip of either form read, a number
// below 2^64 read.
const READ_NUMBER: u32 = 1;

const READ_SLIP: u32 = 2;

const WRITE_NUMBER: u32 = 3;

const WRITE_SLIP: u32 = 4;

const READ_ANY_SLIP: u32 = 5;

const READ_WIDE_NUMBER: u32 = 6;

// A case begins with its kind and the length of the room lent, 32 bits each, and with a count, a number to write or 1 for form 2, and a place,
// 64 bits each.
// The bytes to read, or the numbers to write, follow.
const BODY: usize = 24;

// The most bytes of a case.
const MOST_CASE: usize = 4096;

fn answer(rt: &impl Print, case: &[u8]) -> io::Result<()> {
    let body = after(case, BODY);
    let room = u32_at(case, 4) as usize;
    let n = u64_at(case, 8);
    let at = u64_at(case, 16) as usize;
    match u32_at(case, 0) {
        READ_NUMBER => reading::number(rt, body, n, at, false),
        READ_WIDE_NUMBER => reading::number(rt, body, n, at, true),
        READ_SLIP => reading::slip(rt, body, room),
        READ_ANY_SLIP => reading::any_slip(rt, body, room),
        WRITE_NUMBER => writing::number(rt, n, at, room),
        WRITE_SLIP => writing::slip(rt, body, n == 1, room),
        _ => print!(rt; ": no case"),
    }
}

// A case of up to 4,096 bytes; of a longer one the rest is not read.
fn read(rt: &impl Print, reader: &mut impl io::Read) -> io::Result<()> {
    let mut room = [0u8; MOST_CASE];
    let count = read_full(reader, &mut room);
    answer(rt, &room[..count])?;
    println!(rt)
}

fn case(rt: &(impl Files + Print + Eprint), argument: Argument) -> io::Result<()> {
    let Some(name) = name_given(rt, argument)? else {
        return Ok(());
    };
    let Some(mut file) = open_named(rt, name)? else {
        return Ok(());
    };
    rt.write_all(name)?;
    read(rt, &mut file)
}

fn main(rt: HostRuntime) -> io::Result<()> {
    for i in 1..usize::MAX {
        let mut room = [0u8; MOST_NAME];
        match argument_at(&rt, i, &mut room) {
            Some(next) => case(&rt, next)?,
            None => break,
        }
    }
    Ok(())
}
