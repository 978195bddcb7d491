// A whole sheet, read once from its first bit to its last: how many rules, where each begins, where they end; or the refusal.
ghost use Rattle.std.specs.Prelude.{◌≡◌, ◌*◌, ◌-◌, ◌≤◌, ◌<◌, ◌^◌, length, take, drop};
ghost use Rattle.definition.specs.Field.{got, and_then, sheet_bits};
ghost use Rattle.definition.specs.Sheet.{sheet_limits, first_set, ended};
ghost use Rattle.forms.specs.Form.{as_form};
ghost use Rattle.sheet.specs.End.{as_step, skip_all};
ghost use Rattle.sheet.specs.Rules.{Places, rule_ends, noted, place_or, checked, checked_from, begun, as_checked};

use answers::{Reason, Refusal};
use forms::Form;

// How many rules, and the bit after them.
#[derive(Clone, Copy)]
pub struct Rules {
    pub count: usize,
    pub end: usize,
}

// Rules one behind the other, each one's beginning noted.
fn rules_end(
    form: Form,
    sheet: &[u8],
    begins: &mut [usize],
    start: usize,
    count: usize,
) -> Result<usize, Refusal>
    requires { (start < 2 ^ 20) × (start ≤ 8 * length sheet.now) × (count ≤ sheet_limits.rules) × Places (length sheet.now) (length begins.old) }
    ensures { (as_step result ≡ skip_all (rule_ends (as_form form)) count (sheet_bits sheet.now) start)
        × (begins.new ≡ noted (as_form form) (sheet_bits sheet.now) count 0 start begins.old) }
{
    let mut at = start;
    for i in 0..count {
        begins[i] = at;
        at = crate::rule::rule_end(form, sheet, at)?;
    }
    Ok(at)
}

// The place of the first bit that is set, or the end.
fn first_set(sheet: &[u8], start: usize, end: usize) -> usize
    requires { (start ≤ end) × (end ≤ 8 * length sheet.now) × (end < 2 ^ 32) }
    ensures { result ≡ place_or end (first_set (take (end - start) (drop start (sheet_bits sheet.now))) start) }
{
    for at in start..end {
        if 0 < field::field_at(sheet, at, 1) {
            return at;
        }
    }
    end
}

// "then zero bits to the byte's end, then nothing".
fn ended_at(sheet: &[u8], at: usize) -> Result<usize, Refusal>
    requires { (at ≤ 8 * length sheet.now) × (at < 2 ^ 31) }
    ensures { as_step result ≡ ended (sheet_bits sheet.now) (tt {0}) at }
{
    let bytes = (at + 7) / 8;
    let end = 8 * bytes;
    let place = first_set(sheet, at, end);
    if place < end {
        return Err(Refusal {
            reason: Reason::BadEnd,
            place,
        });
    }
    if bytes < sheet.len() {
        return Err(Refusal {
            reason: Reason::BadEnd,
            place: end,
        });
    }
    Ok(at)
}

// The rules and what follows them, their number being known.
fn check_rules(
    form: Form,
    sheet: &[u8],
    begins: &mut [usize],
    start: usize,
    count: usize,
) -> Result<Rules, Refusal>
    requires { (start < 2 ^ 20) × (start ≤ 8 * length sheet.now) × (count ≤ sheet_limits.rules) × Places (length sheet.now) (length begins.old) }
    ensures { (as_checked result ≡ checked_from (as_form form) (sheet_bits sheet.now) count start)
        × (begins.new ≡ noted (as_form form) (sheet_bits sheet.now) count 0 start begins.old) }
{
    let behind = rules_end(form, sheet, begins, start, count)?;
    let end = ended_at(sheet, behind)?;
    Ok(Rules { count, end })
}

// Every byte string gets an answer: "1, 2 and 4 as met from the first bit on; then 3". How many rules there are is read through 01's view of
// the sheet, crate `reader`.
pub fn check(form: Form, sheet: &[u8], begins: &mut [usize]) -> Result<Rules, Refusal>
    requires { Places (length sheet.now) (length begins.old) }
    ensures { (as_checked result ≡ checked (as_form form) sheet.now) × (begins.new ≡ begun (as_form form) sheet.now begins.old) }
{
    let (count, start) = reader::rule_count(form, sheet)?;
    check_rules(form, sheet, begins, start, count as usize)
}
