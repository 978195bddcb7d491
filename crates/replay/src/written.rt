// Does an entry that writes a sheet or text do what a record tells? Told: CODE BYTES PLACE ROOM, and the bytes at the front of the buffer.
ghost use Rattle.std.specs.Prelude.{◌≤◌, length};

use crate::buffer;
use crate::record::number;
use answers::Written;

#[derive(Clone, Copy)]
pub enum Entry {
    WriteBack,
    Line,
    Convert,
}

fn write(entry: Entry, form: u64, sheet: &[u8], out: &mut [u8]) -> Written {
    match entry {
        Entry::WriteBack => hours::write_back(form, sheet, out),
        Entry::Line => hours::line(form, sheet, out),
        Entry::Convert => hours::convert(form, sheet, out),
    }
}

// Are the numbers and every byte of the buffer those of the record?
fn written_so(entry: Entry, form: u64, sheet: &[u8], told: &[u8], out: &mut [u8]) -> bool
    requires { 12 ≤ length told.now }
{
    buffer::fill(out);
    let written = write(entry, form, sheet, out);
    let numbers = number(told, 0) == written.code as usize
        && number(told, 3) == written.bytes
        && number(told, 6) == written.place;
    numbers && buffer::holds(out, &told[12..])
}

pub fn agrees(entry: Entry, form: u64, sheet: &[u8], told: &[u8], out: &mut [u8]) -> bool {
    if told.len() < 12 {
        return false;
    }
    let room = number(told, 9);
    if out.len() < room {
        return false;
    }
    written_so(entry, form, sheet, told, &mut out[..room])
}
