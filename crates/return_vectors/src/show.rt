// What the program prints: a line for each film filed in a return, its refusal and then the return's numbers.
use return_totals::Filed;
use std::io;

pub fn filed(rt: &impl Print, state: usize, f: Filed) -> io::Result<()> {
    let r = f.totals;
    print!(rt; "{state} {} {}", f.refusal, r.accepted)?;
    for count in r.refused.iter() {
        print!(rt; " {count}")?;
    }
    print!(rt; " {} {} {}", r.tracks, r.samples, r.bytes)?;
    for (scale, units) in r.scales.iter().zip(r.units.iter()).take(r.count) {
        print!(rt; " {scale} {units}")?;
    }
    println!(rt)
}
