// Writes document 01's slip, reads it back, and has a damaged copy refused.
#![tactic(auto)]

use slip::{Head, SlipError};
use std::io;

// Track 1, 600 units a second, media time 24 up to 73: 50 bytes of film from byte 1100 on, and 70 from byte 900 on.
fn write(out: &mut [u8]) -> Option<usize> {
    let head = Head {
        id: 1,
        scale: 600,
        a: 24,
        b: 73,
        pairs: 2,
    };
    let mut at = slip::put_head(out, head, false)?;
    for n in &[1100, 50, 900, 70] {
        at = leb128::put_number(out, at, *n)?;
    }
    Some(at)
}

fn print_bytes(rt: &impl Print, bytes: &[u8]) -> io::Result<()> {
    print!(rt; "slip")?;
    for byte in bytes {
        print!(rt; " {byte:02x}")?;
    }
    println!(rt)
}

fn print_head(rt: &impl Print, head: Head) -> io::Result<()> {
    let Head {
        id,
        scale,
        a,
        b,
        ..
    } = head;
    println!(rt; "track {id}, {scale} units a second, media time {a} up to {b}")
}

fn print_pair(rt: &impl Print, offset: u32, length: u32) -> io::Result<()> {
    println!(rt; "{length} bytes of film from byte {offset} of the file")
}

fn read(rt: &impl Print, bytes: &[u8]) -> io::Result<()> {
    let mut room = [0u32; 4];
    match slip::read_slip(bytes, &mut room) {
        Ok(head) => {
            print_head(rt, head)?;
            print_pair(rt, room[0], room[1])?;
            print_pair(rt, room[2], room[3])
        }
        Err(SlipError::NoRoom) => println!(rt; "refused 16"),
        Err(SlipError::Malformed(place)) => println!(rt; "refused 17 at byte {place} of the slip"),
    }
}

fn main(rt: HostRuntime) -> io::Result<()> {
    let mut out = [0u8; 13];
    write(&mut out);
    print_bytes(&rt, &out)?;
    read(&rt, &out)?;
    // b is now a.
    out[5] = 24;
    read(&rt, &out)
}
