// The three questions: which tracks the movie holds, which bytes show the second hose, and whether the film time filed adds up.
use super::filing;
use edits::MediaTime;
use std::io;
use stretch::stretch_of;
use structure::source::Source;
use track_list::{LINE, Line, track_list};

// The track that films the second hose.
const SECOND_HOSE: u32 = 2;

// More places than the pairs of a film of 65,536 bytes can have.
const PLACES: usize = 65536;

// The track that the numbers of a line tell; none where they are too few.
fn line_in(numbers: &[u32]) -> Option<Line> {
    match numbers {
        &[id, subtype, scale, total, samples, chunks, edits, stored] => Some(Line {
            id,
            subtype,
            scale,
            total,
            samples,
            chunks,
            edits,
            stored,
        }),
        _ => None,
    }
}

// A track: the subtype as eight hex digits, the rest decimal.
fn print_track(rt: &impl Print, line: Line) -> io::Result<()> {
    print!(rt;
        "{} {:08x} {} {}",
        line.id, line.subtype, line.scale, line.total
    )?;
    println!(rt;
        " {} {} {} {}",
        line.samples, line.chunks, line.edits, line.stored
    )
}

// The total of the media time of a track; 0 where the list has not that ID.
fn total_of(list: &[u32], id: u32) -> u32 {
    for line in list.chunks_exact(LINE).filter_map(line_in) {
        if line.id == id {
            return line.total;
        }
    }
    0
}

// The bytes that show the whole of a track. Not inlined, so that its room is off the stack before the filing begins, which has room of its own.
#[inline(never)]
fn print_bytes(rt: &impl Print, film: &[u8], id: u32, total: u32) -> io::Result<()> {
    let mut room = [0u32; PLACES];
    match stretch_of(film, id, MediaTime(0), MediaTime(total), &mut room) {
        Ok(totals) => {
            for pair in room.chunks_exact(2).take(totals.pairs) {
                if let [offset, length] = pair {
                    println!(rt; "{length} bytes of film from byte {offset} of the file")?;
                }
            }
            println!(rt; "{} bytes of film in all", totals.bytes)
        }
        Err(refusal) => println!(rt; "refused {}", u32::from(refusal)),
    }
}

fn print_answers(rt: &impl Print, film: &[u8], list: &[u32]) -> io::Result<()> {
    println!(rt; "Which tracks does the movie hold?")?;
    println!(rt; "id subtype scale total samples chunks edits stored")?;
    for line in list.chunks_exact(LINE).filter_map(line_in) {
        print_track(rt, line)?;
    }
    println!(rt; "Which bytes show the second hose?")?;
    print_bytes(rt, film, SECOND_HOSE, total_of(list, SECOND_HOSE))?;
    println!(rt; "Does the film time filed add up?")?;
    for line in list.chunks_exact(LINE).filter_map(line_in) {
        filing::account(rt, film, line.id, line.total)?;
    }
    Ok(())
}

pub fn answer(rt: &impl Print, film: &[u8]) -> io::Result<()> {
    // Eight numbers for each of 16 tracks: more tracks are refused 6.
    let mut room = [0u32; 128];
    match track_list(film, Source::whole(), &mut room) {
        Ok(count) => {
            // An accepted list fills no more places than there are.
            let n = count.saturating_mul(LINE).min(room.len());
            print_answers(rt, film, &room[..n])
        }
        Err(refusal) => println!(rt; "refused {}", u32::from(refusal)),
    }
}
