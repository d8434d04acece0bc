// What the program prints, line by line.
use std::io;
use track_list::Line;

pub fn heading(rt: &impl Print) -> io::Result<()> {
    println!(rt; "id subtype scale total samples chunks edits stored")
}

// A track: the subtype as eight hex digits, the rest decimal.
pub fn line(rt: &impl Print, line: Line) -> io::Result<()> {
    print!(rt;
        "{} {:08x} {} {}",
        line.id, line.subtype, line.scale, line.total
    )?;
    println!(rt;
        " {} {} {} {}",
        line.samples, line.chunks, line.edits, line.stored
    )
}
