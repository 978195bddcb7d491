// The entries in a form that is known: the fold of a sheet, the state at a date and minute, the line, and the conversion to the other form. Each is lent
// places for where the rules begin, enough for the sheet; every byte string, date and buffer gets an answer. Rests on the check of sheets, on the stages of
// the fold and of the lookup, on the line of rules and on their conversion.
ghost use Rattle.std.specs.Prelude.{◌≡◌, length};
ghost use Rattle.definition.specs.Sheet.{sheet_limits};
ghost use Rattle.definition.specs.Fold.{buffer, numbers, written_numbers, fold};
ghost use Rattle.definition.specs.Show.{show_line};
ghost use Rattle.definition.specs.Forms.{convert, other};
ghost use Rattle.definition.specs.Lookup.{lookup};
ghost use Rattle.forms.specs.Form.{as_form};
ghost use Rattle.answers.specs.Numbers.{fold_numbers, looked_up, write_numbers};
ghost use Rattle.sheet.specs.Rules.{Places};

use answers::{Answer, Folded, Written};
use forms::Form;
use normalize::Engine;
use sheet::check::check;

// "The fold answers code, drained, emitted (folded rules only), left (rules copied), bytes written, place", and why it stopped. The result stands
// at the front of `out`; a refused fold changes no byte. `engine` chooses one of two.
pub fn fold(
    form: Form,
    sheet: &[u8],
    begins: &mut [usize],
    out: &mut [u8],
    engine: Engine,
) -> Folded
    requires { Places (length sheet.now) (length begins.old) }
    ensures { (fold_numbers result ≡ numbers (fold (as_form form) sheet_limits (length out.old) sheet.now))
        × (out.new ≡ buffer (fold (as_form form) sheet_limits (length out.old) sheet.now).result out.old) }
{
    match check(form, sheet, begins) {
        Ok(rules) => normalize::fold_rules(
            form,
            sheet,
            begins,
            rules.count,
            rules.end,
            out,
            engine,
        ),
        Err(why) => Folded::refused(why),
    }
}

// "Takes a sheet, a year, month, day and minute (0 to 1439)": "answers code, kind, comment and the table's place; refused, kind and comment are 0".
pub fn lookup(
    form: Form,
    sheet: &[u8],
    begins: &mut [usize],
    year: u64,
    month: u64,
    day: u64,
    minute: u64,
) -> Answer
    requires { Places (length sheet.now) (length begins.old) }
    ensures { looked_up result ≡ lookup (as_form form) sheet_limits sheet.now year month day minute }
{
    match check(form, sheet, begins) {
        Ok(rules) => lookup::look_rules(form, sheet, begins, rules.count, year, month, day, minute),
        Err(why) => Answer::refused(why),
    }
}

// 02, M-100: "a writer from an accepted sheet to text": code, bytes written and place. The line stands at the front of `out`; a refused one
// changes no byte.
pub fn line(form: Form, sheet: &[u8], begins: &mut [usize], out: &mut [u8]) -> Written
    requires { Places (length sheet.now) (length begins.old) }
    ensures { (write_numbers result ≡ written_numbers (show_line (as_form form) sheet_limits (length out.old) sheet.now))
        × (out.new ≡ buffer (show_line (as_form form) sheet_limits (length out.old) sheet.now).result out.old) }
{
    match check(form, sheet, begins) {
        Ok(rules) => line::line_of(form, sheet, begins, rules.count, out),
        Err(why) => Written::refused(why),
    }
}

// The sheet in the other form: code, bytes written and place. The result stands at the front of `out`; a refused sheet changes no byte.
pub fn convert(form: Form, sheet: &[u8], begins: &mut [usize], out: &mut [u8]) -> Written
    requires { Places (length sheet.now) (length begins.old) }
    ensures { (write_numbers result ≡ written_numbers (convert (as_form form) (other (as_form form)) sheet_limits (length out.old) sheet.now))
        × (out.new ≡ buffer (convert (as_form form) (other (as_form form)) sheet_limits (length out.old) sheet.now).result out.old) }
{
    match check(form, sheet, begins) {
        Ok(rules) => convert::convert_rules(form, sheet, begins, rules.count, rules.end, out),
        Err(why) => Written::refused(why),
    }
}
