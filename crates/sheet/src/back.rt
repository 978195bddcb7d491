// Writing back: an accepted sheet's rules, written again. Reading and writing are inverse, so they are the sheet's own bytes: these are
// copied, and no rule is taken apart.
ghost use Rattle.std.specs.Prelude.{◌≡◌, length};
ghost use Rattle.definition.specs.Sheet.{sheet_limits};
ghost use Rattle.definition.specs.Fold.{buffer, written_numbers, written_into, write_back};
ghost use Rattle.forms.specs.Form.{as_form};
ghost use Rattle.answers.specs.Numbers.{write_numbers};
ghost use Rattle.sheet.specs.Rules.{Places};

use answers::{Reason, Refusal, Written};
use forms::Form;
use limits::lacks_room;

// The sheet's bytes at the front of the buffer, where they have room.
fn copy_back(sheet: &[u8], out: &mut [u8]) -> Written
    ensures { (write_numbers result ≡ written_numbers (written_into (length out.old) sheet.now))
        × (out.new ≡ buffer (written_into (length out.old) sheet.now).result out.old) }
{
    if lacks_room(out.len(), sheet.len()) {
        return Written::refused(Refusal {
            reason: Reason::NoRoom,
            place: sheet.len(),
        });
    }
    out[..sheet.len()].copy_from_slice(sheet);
    Written {
        code: 0,
        bytes: sheet.len(),
        place: 0,
    }
}

// "Writing back refuses by 1 to 4 and 7 only, in the order below."
pub fn write_back(form: Form, sheet: &[u8], begins: &mut [usize], out: &mut [u8]) -> Written
    requires { Places (length sheet.now) (length begins.old) }
    ensures { (write_numbers result ≡ written_numbers (write_back (as_form form) sheet_limits (length out.old) sheet.now))
        × (out.new ≡ buffer (write_back (as_form form) sheet_limits (length out.old) sheet.now).result out.old) }
{
    match crate::check::check(form, sheet, begins) {
        Ok(_) => copy_back(sheet, out),
        Err(refusal) => Written::refused(refusal),
    }
}
