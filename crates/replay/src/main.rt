// Replays readings, write-backs, lines, conversions, folds and lookups of sheets of both forms (data/, made by oracle/sheets.py), and what another
// calendar says of dates and of years (made by oracle/dates.py). Prints how many were compared and how many differ.
#![tactic(auto)]

mod buffer;
mod date;
mod fold;
mod reading;
mod record;
mod state;
mod written;
mod year;

use crate::written::Entry;
use std::fs::File;
use std::io;
use std::rt::Files;

// What the records of a file are.
#[derive(Clone, Copy)]
enum Sort {
    Reading,
    WriteBack,
    Line,
    Conversion,
    Fold,
    Lookup,
    Date,
    Year,
}

// More records than any file here has: a proved loop has to end.
const RECORDS: usize = 1000000;

#[derive(Clone, Copy)]
struct Tally {
    compared: usize,
    differing: usize,
}

// Does what the record tells come out? Entries that write are lent the buffer. Dates and years are told without a sheet, so that their form is
// no matter.
fn agrees(sort: Sort, form: u64, sheet: &[u8], told: &[u8], out: &mut [u8]) -> bool {
    match sort {
        Sort::Reading => reading::agrees(form, sheet, told),
        Sort::WriteBack => written::agrees(Entry::WriteBack, form, sheet, told, out),
        Sort::Line => written::agrees(Entry::Line, form, sheet, told, out),
        Sort::Conversion => written::agrees(Entry::Convert, form, sheet, told, out),
        Sort::Fold => fold::agrees(form, sheet, told, out),
        Sort::Lookup => state::agrees(form, sheet, told),
        Sort::Date => date::agrees(told),
        Sort::Year => year::agrees(told),
    }
}

// Compares a body: the sheet, `length` bytes, and behind it what is told of it.
fn agrees_body(sort: Sort, form: u64, body: &[u8], length: usize, out: &mut [u8]) -> bool {
    if body.len() < length {
        return false;
    }
    agrees(sort, form, &body[..length], &body[length..], out)
}

// Whether the file's next record comes out, where there is one: the form in eight bytes, the sheet's length, the length of all that follows, the sheet,
// and what is told of it. A file that ends behind the three numbers differs.
fn compare_record(file: &mut File, sort: Sort, body: &mut [u8], out: &mut [u8]) -> Option<bool> {
    let mut numbers = [0u8; 14];
    if record::read_full(file, &mut numbers) < 14 {
        return None;
    }
    let form = record::long_number(&numbers, 0);
    let length = record::number(&numbers, 8);
    let size = record::number(&numbers, 11);
    let taken = record::take(file, body, size);
    if taken < size {
        return Some(false);
    }
    Some(agrees_body(sort, form, &body[..taken], length, out))
}

// Record after record to the end of the file. Both buffers are made once, since clearing them takes longer than most records.
fn replay(file: &mut File, sort: Sort) -> Tally {
    let mut body = [0u8; 65536];
    let mut out = [0u8; 65536];
    let mut differing: usize = 0;
    for compared in 0..RECORDS {
        let Some(same) = compare_record(file, sort, &mut body, &mut out) else {
            return Tally {
                compared,
                differing,
            };
        };
        if !same {
            differing += 1;
        }
    }
    Tally {
        compared: RECORDS,
        differing,
    }
}

// Replays a file's records. One that can't be opened is told on standard error.
fn replay_file(
    rt: &(impl Files<File = File> + Print + Eprint),
    path: &str,
    sort: Sort,
    name: &str,
) -> io::Result<()> {
    match File::open(rt, path) {
        Ok(mut file) => {
            let tally = replay(&mut file, sort);
            let compared = tally.compared;
            let differing = tally.differing;
            println!(rt; "{compared} {name} compared, {differing} differing")
        }
        Err(refused) => eprintln!(rt; "{path}: {refused}"),
    }
}

fn main(rt: HostRuntime) -> io::Result<()> {
    replay_file(&rt, "readings", Sort::Reading, "readings")?;
    replay_file(&rt, "write_backs", Sort::WriteBack, "write-backs")?;
    replay_file(&rt, "lines", Sort::Line, "lines")?;
    replay_file(&rt, "conversions", Sort::Conversion, "conversions")?;
    replay_file(&rt, "folds", Sort::Fold, "folds")?;
    replay_file(&rt, "lookups", Sort::Lookup, "lookups")?;
    replay_file(&rt, "dates", Sort::Date, "dates")?;
    replay_file(&rt, "years", Sort::Year, "years, day by day,")
}
