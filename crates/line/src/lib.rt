// The line of a checked sheet: its rules as text, one behind the other, measured before anything is written.
#![tactic(auto)]

ghost use Rattle.std.specs.Prelude.{◌≡◌, ◌≤◌, length};
ghost use Rattle.definition.specs.Field.{sheet_bits};
ghost use Rattle.definition.specs.Sheet.{sheet_limits};
ghost use Rattle.definition.specs.Fold.{buffer, written_numbers};
ghost use Rattle.definition.specs.Show.{show_rules};
ghost use Rattle.forms.specs.Form.{as_form};
ghost use Rattle.answers.specs.Numbers.{write_numbers};
ghost use Rattle.sheet.specs.Rules.{rules_at, AllBegin};
ghost use Rattle.line.specs.Lined.{Lines, Measured};

use answers::{Reason, Refusal, Written};
use forms::Form;
use limits::lacks_room;
use rule_text::rule::show_rule;

// Rules one behind the other, up to the first that has no words: the place after the line, or 10 and the rule's index.
fn show_rules(
    form: Form,
    sheet: &[u8],
    begins: &[usize],
    count: usize,
    out: &mut [u8],
) -> Result<usize, Refusal>
    requires { AllBegin (as_form form) (sheet_bits sheet.now) begins.now count × (count ≤ sheet_limits.rules) × (count ≤ length begins.now) }
    ensures { Lines (as_form form) (sheet_bits sheet.now) begins.now count out.old result out.new }
{
    let mut to: usize = 0;
    for i in 0..count {
        let told = show_rule(form, sheet, begins[i], i == 0, out, to);
        if told.wordless {
            return Err(Refusal {
                reason: Reason::NoWords,
                place: i,
            });
        }
        to = told.to;
    }
    Ok(to)
}

// How long the line is: the rules are put into a buffer that keeps none of it.
fn measure(form: Form, sheet: &[u8], begins: &[usize], count: usize) -> Result<usize, Refusal>
    requires { AllBegin (as_form form) (sheet_bits sheet.now) begins.now count × (count ≤ sheet_limits.rules) × (count ≤ length begins.now) }
    ensures { Measured (rules_at (as_form form) (sheet_bits sheet.now) begins.now count) result }
{
    let mut nothing = [0u8; 1];
    show_rules(form, sheet, begins, count, &mut nothing)
}

// "Refusals: 10 .. after 3, before 7": code, bytes written and place; the line stands at the front of `out`.
pub fn line_of(form: Form, sheet: &[u8], begins: &[usize], count: usize, out: &mut [u8]) -> Written
    requires { AllBegin (as_form form) (sheet_bits sheet.now) begins.now count × (count ≤ sheet_limits.rules) × (count ≤ length begins.now) }
    ensures { (write_numbers result ≡ written_numbers (show_rules (length out.old) (rules_at (as_form form) (sheet_bits sheet.now) begins.now count)))
        × (out.new ≡ buffer (show_rules (length out.old) (rules_at (as_form form) (sheet_bits sheet.now) begins.now count)).result out.old) }
{
    match measure(form, sheet, begins, count) {
        Err(why) => Written::refused(why),
        Ok(bytes) => {
            if lacks_room(out.len(), bytes) {
                return Written::refused(Refusal {
                    reason: Reason::NoRoom,
                    place: bytes,
                });
            }
            // It has words and room, as was measured.
            let _ = show_rules(form, sheet, begins, count, out);
            Written {
                code: 0,
                bytes,
                place: 0,
            }
        }
    }
}
