// Does the fold of a sheet of a form do what a record tells? Told: CODE DRAINED EMITTED LEFT BYTES PLACE WHY ROOM, and the bytes at the front
// of the buffer.
ghost use Rattle.std.specs.Prelude.{◌≤◌, length};

use crate::buffer;
use crate::record::number;

// Are the numbers and every byte of the buffer those of the record?
fn folded_so(form: u64, sheet: &[u8], told: &[u8], out: &mut [u8]) -> bool
    requires { 24 ≤ length told.now }
{
    buffer::fill(out);
    let folded = hours::fold(form, sheet, out);
    let numbers = number(told, 0) as u64 == folded.code
        && number(told, 3) as u64 == folded.drained
        && number(told, 6) as u64 == folded.emitted
        && number(told, 9) as u64 == folded.left
        && number(told, 12) as u64 == folded.bytes
        && number(told, 15) as u64 == folded.place
        && number(told, 18) as u64 == folded.why;
    numbers && buffer::holds(out, &told[24..])
}

pub fn agrees(form: u64, sheet: &[u8], told: &[u8], out: &mut [u8]) -> bool {
    if told.len() < 24 {
        return false;
    }
    let room = number(told, 21);
    if out.len() < room {
        return false;
    }
    folded_so(form, sheet, told, &mut out[..room])
}
