// What users touch: the fold of a sheet, by either engine, the state at a date and minute, writing back, the line of a sheet, and its conversion to the other form. None has
// a `requires`: every form's number, byte string, date and buffer gets an answer. 02, M-106: a number that names no form is refused by 2 with place 0,
// before all else. Rests on the entries in a form that is known.
#![tactic(auto)]

pub mod export;
mod in_form;

ghost use Rattle.std.specs.Prelude.{◌≡◌, length};
ghost use Rattle.definition.specs.Sheet.{sheet_limits};
ghost use Rattle.definition.specs.Fold.{buffer, numbers, written_numbers};
ghost use Rattle.definition.specs.Forms.{fold_in, write_back_in, show_line_in, lookup_in, convert_in};
ghost use Rattle.answers.specs.Numbers.{fold_numbers, looked_up, write_numbers};

use answers::{Answer, Folded, Reason, Refusal, Written};
use forms::form_of;
use normalize::Engine;

// A rule takes 70 bits at least, so fewer than 64 rules begin in so many bytes: for a short sheet there are few places of beginnings to clear.
const FEW_BYTES: usize = 512;

// What a number that names no form is refused by.
const NO_FORM: Refusal = Refusal {
    reason: Reason::Unlawful,
    place: 0,
};

// The fold by one of two engines.
fn fold_by(form: u64, sheet: &[u8], out: &mut [u8], engine: Engine) -> Folded
    ensures { (fold_numbers result ≡ numbers (fold_in sheet_limits form (length out.old) sheet.now))
        × (out.new ≡ buffer (fold_in sheet_limits form (length out.old) sheet.now).result out.old) }
{
    let Some(known) = form_of(form) else {
        return Folded::refused(NO_FORM);
    };
    if sheet.len() <= FEW_BYTES {
        let mut begins = [0usize; 64];
        return in_form::fold(known, sheet, &mut begins, out, engine);
    }
    let mut begins = [0usize; 256];
    in_form::fold(known, sheet, &mut begins, out, engine)
}

// "The fold answers code, drained, emitted (folded rules only), left (rules copied), bytes written, place", and why it stopped. The result stands
// at the front of `out`, in the form of the sheet; a refused fold changes no byte.
pub fn fold(form: u64, sheet: &[u8], out: &mut [u8]) -> Folded
    ensures { (fold_numbers result ≡ numbers (fold_in sheet_limits form (length out.old) sheet.now))
        × (out.new ≡ buffer (fold_in sheet_limits form (length out.old) sheet.now).result out.old) }
{
    fold_by(form, sheet, out, Engine::Columns)
}

// The same by the plain engine: 02, M-102: "It must answer as the first engine on every input, codes, places and bytes alike".
pub fn fold_plain(form: u64, sheet: &[u8], out: &mut [u8]) -> Folded
    ensures { (fold_numbers result ≡ numbers (fold_in sheet_limits form (length out.old) sheet.now))
        × (out.new ≡ buffer (fold_in sheet_limits form (length out.old) sheet.now).result out.old) }
{
    fold_by(form, sheet, out, Engine::Plain)
}

// "Takes a sheet, a year, month, day and minute (0 to 1439)": "answers code, kind, comment and the table's place; refused, kind and comment are 0".
pub fn lookup(form: u64, sheet: &[u8], year: u64, month: u64, day: u64, minute: u64) -> Answer
    ensures { looked_up result ≡ lookup_in sheet_limits form sheet.now year month day minute }
{
    let Some(known) = form_of(form) else {
        return Answer::refused(NO_FORM);
    };
    if sheet.len() <= FEW_BYTES {
        let mut begins = [0usize; 64];
        return in_form::lookup(known, sheet, &mut begins, year, month, day, minute);
    }
    let mut begins = [0usize; 256];
    in_form::lookup(known, sheet, &mut begins, year, month, day, minute)
}

// "Writing back refuses by 1 to 4 and 7 only": code, bytes written and place.
pub fn write_back(form: u64, sheet: &[u8], out: &mut [u8]) -> Written
    ensures { (write_numbers result ≡ written_numbers (write_back_in sheet_limits form (length out.old) sheet.now))
        × (out.new ≡ buffer (write_back_in sheet_limits form (length out.old) sheet.now).result out.old) }
{
    let Some(known) = form_of(form) else {
        return Written::refused(NO_FORM);
    };
    if sheet.len() <= FEW_BYTES {
        let mut begins = [0usize; 64];
        return sheet::back::write_back(known, sheet, &mut begins, out);
    }
    let mut begins = [0usize; 256];
    sheet::back::write_back(known, sheet, &mut begins, out)
}

// 02, M-100: "a writer from an accepted sheet to text": code, bytes written and place. The line stands at the front of `out`; a refused one
// changes no byte.
pub fn line(form: u64, sheet: &[u8], out: &mut [u8]) -> Written
    ensures { (write_numbers result ≡ written_numbers (show_line_in sheet_limits form (length out.old) sheet.now))
        × (out.new ≡ buffer (show_line_in sheet_limits form (length out.old) sheet.now).result out.old) }
{
    let Some(known) = form_of(form) else {
        return Written::refused(NO_FORM);
    };
    if sheet.len() <= FEW_BYTES {
        let mut begins = [0usize; 64];
        return in_form::line(known, sheet, &mut begins, out);
    }
    let mut begins = [0usize; 256];
    in_form::line(known, sheet, &mut begins, out)
}

// 02, M-106: "Stored sheets move to form 2 and back": the number is that of the sheet's form, and the other form comes out: code, bytes written and
// place. A refused sheet changes no byte.
pub fn convert(form: u64, sheet: &[u8], out: &mut [u8]) -> Written
    ensures { (write_numbers result ≡ written_numbers (convert_in sheet_limits form (length out.old) sheet.now))
        × (out.new ≡ buffer (convert_in sheet_limits form (length out.old) sheet.now).result out.old) }
{
    let Some(known) = form_of(form) else {
        return Written::refused(NO_FORM);
    };
    if sheet.len() <= FEW_BYTES {
        let mut begins = [0usize; 64];
        return in_form::convert(known, sheet, &mut begins, out);
    }
    let mut begins = [0usize; 256];
    in_form::convert(known, sheet, &mut begins, out)
}
