// A line for each question: its name, and the answers.
ghost use Rattle.std.specs.Prelude.{◌<◌, ◌^◌, length};

use super::asks::Ask;
use super::{asks, show};
use atoms::kinds;
use bigendian::{after, u32_at};
use chunk_checks::deals_samples;
use edits::MovieTime;
use places::{Part, child_part, part_of};
use std::io;

// The atom at i, from 0, among those of that kind in the set; no bytes where there are no more than i.
pub fn child(set: &[u8], kind: u32, i: usize) -> &[u8]
    requires { length set.now < 2 ^ 32 }
    ensures { length result.now < 2 ^ 32 }
{
    let whole = Part {
        at: 0,
        len: set.len(),
    };
    part_of(set, child_part(set, whole, kinds::STBL, kind, i))
}

// A table of the set; no bytes where it is absent.
fn table(set: &[u8], kind: u32) -> &[u8]
    requires { length set.now < 2 ^ 32 }
    ensures { length result.now < 2 ^ 32 }
{
    child(set, kind, 0)
}

// Of stts and ctts.
fn of_runs(rt: &impl Print, set: &[u8], question: u32, n: u32) -> io::Result<()>
    requires { length set.now < 2 ^ 32 }
{
    let stts = table(set, kinds::STTS);
    let ctts = table(set, kinds::CTTS);
    match question {
        asks::STTS_COUNTS => show::truth(rt, runs::counts(stts, n)),
        asks::CTTS_COUNTS => show::truth(rt, runs::counts(ctts, n)),
        asks::TIMING_OF => show::timing(rt, runs::timing_of(stts, n)),
        asks::SAMPLE_AT => show::found(rt, runs::sample_at(stts, n)),
        _ => print!(rt; "{}", runs::composition_offset(ctts, n)),
    }
}

// Of stsz and stss.
fn of_samples(rt: &impl Print, set: &[u8], ask: Ask, n: u32) -> io::Result<()>
    requires { length set.now < 2 ^ 32 }
{
    let stsz = table(set, kinds::STSZ);
    let stss = table(set, kinds::STSS);
    let question = ask.question;
    match question {
        asks::SIZE_OF => print!(rt; "{}", words::size_of(stsz, n)),
        asks::BYTES_BETWEEN => print!(rt; "{}", words::bytes_between(stsz, ask.a, n)),
        asks::SYNCS_AGREE => show::truth(rt, words::syncs_agree(stss, n)),
        _ => show::truth(rt, words::is_sync(stss, n)),
    }
}

// Where a sample lies, from stsc and stco.
fn place(set: &[u8], n: u32) -> chunks::Located
    requires { length set.now < 2 ^ 32 }
{
    let stco = table(set, kinds::STCO);
    chunks::locate(table(set, kinds::STSC), u32_at(stco, 12), n)
}

// Of stsc and stco.
fn of_chunks(rt: &impl Print, set: &[u8], ask: Ask, n: u32) -> io::Result<()>
    requires { length set.now < 2 ^ 32 }
{
    let stsc = table(set, kinds::STSC);
    let stsz = table(set, kinds::STSZ);
    let stco = table(set, kinds::STCO);
    let question = ask.question;
    match question {
        asks::DEALS_BY_DESCRIPTIONS => {
            show::truth(rt, deals_samples(stsc, u32_at(stco, 12), n, ask.a))
        }
        asks::DEALS_BY_SAMPLES => {
            show::truth(rt, deals_samples(stsc, u32_at(stco, 12), ask.a, n))
        }
        asks::LOCATE => show::located(rt, place(set, n)),
        asks::OFFSET_AT => print!(rt; "{}", chunks::located_offset(stsz, stco, place(set, n), n)),
        asks::CHUNK_OFFSET => print!(rt; "{}", words::chunk_offset(stco, n as u64)),
        _ => show::truth(
            rt,
            chunk_ends::chunks_end_within(stsc, stsz, stco, n as u64),
        ),
    }
}

// Of elst.
fn of_edits(rt: &impl Print, set: &[u8], ask: Ask, n: u32) -> io::Result<()>
    requires { length set.now < 2 ^ 32 }
{
    let elst = table(set, kinds::ELST);
    let question = ask.question;
    match question {
        asks::EDITS_OK => show::truth(rt, edits::edits_ok(elst, ask.a, ask.b, n)),
        _ => show::mapped(rt, edits::media_at(elst, ask.a, ask.b, ask.c, MovieTime(n))),
    }
}

fn answer(rt: &impl Print, set: &[u8], ask: Ask, n: u32) -> io::Result<()>
    requires { length set.now < 2 ^ 32 }
{
    let question = ask.question;
    match question {
        asks::STTS_COUNTS..=asks::SHIFT_AT => of_runs(rt, set, question, n),
        asks::SIZE_OF..=asks::IS_SYNC => of_samples(rt, set, ask, n),
        asks::DEALS_BY_DESCRIPTIONS..=asks::ENDS_WITHIN => of_chunks(rt, set, ask, n),
        _ => of_edits(rt, set, ask, n),
    }
}

// The totals, which ask for no number.
fn totals(rt: &impl Print, set: &[u8]) -> io::Result<()>
    requires { length set.now < 2 ^ 32 }
{
    let stts = table(set, kinds::STTS);
    let least = runs::least_duration(stts);
    let bytes = words::all_bytes(table(set, kinds::STSZ));
    print!(rt; "total_duration ")?;
    show::total(rt, runs::total_duration(stts))?;
    print!(rt; ", least_duration {least}, all_bytes {bytes}")
}

fn edits_total(rt: &impl Print, set: &[u8]) -> io::Result<()>
    requires { length set.now < 2 ^ 32 }
{
    print!(rt; "edits_total ")?;
    show::total(rt, edits::edits_total(table(set, kinds::ELST)))
}

// The name of a question, with the numbers that belong to the whole line.
fn heading(rt: &impl Print, set: &[u8], ask: Ask) -> io::Result<()>
    requires { length set.now < 2 ^ 32 }
{
    let question = ask.question;
    match question {
        asks::STTS_COUNTS => print!(rt; "counts in stts"),
        asks::CTTS_COUNTS => print!(rt; "counts in ctts"),
        asks::TOTALS => totals(rt, set),
        asks::TIMING_OF => print!(rt; "timing_of"),
        asks::SAMPLE_AT => print!(rt; "sample_at"),
        asks::SHIFT_AT => print!(rt; "composition_offset"),
        asks::SIZE_OF => print!(rt; "size_of"),
        asks::BYTES_BETWEEN => print!(rt; "bytes_between from {}", ask.a),
        asks::SYNCS_AGREE => print!(rt; "syncs_agree"),
        asks::IS_SYNC => print!(rt; "is_sync"),
        asks::DEALS_BY_DESCRIPTIONS => print!(rt; "deals_samples samples {}", ask.a),
        asks::DEALS_BY_SAMPLES => print!(rt; "deals_samples descriptions {}", ask.a),
        asks::LOCATE => print!(rt; "locate"),
        asks::OFFSET_AT => print!(rt; "located_offset"),
        asks::CHUNK_OFFSET => print!(rt; "chunk_offset"),
        asks::ENDS_WITHIN => print!(rt; "chunks_end_within"),
        asks::EDITS_TOTAL => edits_total(rt, set),
        asks::EDITS_OK => print!(rt; "edits_ok scale {} movie {}", ask.a, ask.b),
        asks::MEDIA_AT => { print!(rt; "media_at scale {} movie {} total {}", ask.a, ask.b, ask.c) }
        _ => print!(rt; "no question"),
    }
}

pub fn line(rt: &impl Print, set: &[u8], atom: &[u8]) -> io::Result<()>
    requires { length set.now < 2 ^ 32 }
{
    let ask = asks::ask_in(atom);
    print!(rt; "  ")?;
    heading(rt, set, ask)?;
    for number in after(atom, asks::HEAD).chunks_exact(4) {
        let n = u32_at(number, 0);
        print!(rt; " {n}:")?;
        answer(rt, set, ask, n)?;
    }
    println!(rt)
}
