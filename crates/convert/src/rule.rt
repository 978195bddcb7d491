// One rule, from a sheet of one form to a buffer of another: its comment and its counts written anew, all other bits copied.
ghost use Rattle.std.specs.Prelude.{◌≡◌, cond, ℕ, ◌+◌, ◌≤◌, ◌<◌, ◌^◌, leb, ltb, length, get_or};
ghost use Rattle.definition.specs.Field.{Layout, got, sheet_bits};
ghost use Rattle.definition.specs.Sheet.{sheet_limits, Counts, head_of, title, counts, rule};
ghost use Rattle.forms.specs.Form.{as_form};
ghost use Rattle.sheet.specs.Begin.{rule_read_at, Readable};
ghost use Rattle.item_writer.specs.Written.{RoomFor, Wrote};

use field::field_at;
use forms::{Form, comment_over, comment_width, head_width, title_width};
use item_writer::put::put;
use rule_writer::head::put_counts;
use sheet::rule::counts_at;
use writer::copy_bits;

// Has the comment of the rule at a bit no room in the form `to`?
pub fn has_long_comment(form: Form, to: Form, sheet: &[u8], at: usize) -> bool
    requires { Readable (as_form form) (sheet_bits sheet.now) at × (at < 2 ^ 25) }
    ensures { result ≡ leb (2 ^ (as_form to).comment) (rule_read_at (as_form form) (sheet_bits sheet.now) at).state.comment }
{
    comment_over(to, field_at(sheet, at + 4, comment_width(form)))
}

// Where a rule ends: where the next one begins, and the last one at the end of all.
pub fn rule_end(begins: &[usize], rule: usize, count: usize, end: usize) -> usize
    requires { (rule < count) × (count ≤ length begins.now) }
    ensures { result ≡ cond (ltb (rule + 1) count) (get_or begins.now (rule + 1) 0) end }
{
    if rule + 1 < count {
        begins[rule + 1]
    } else {
        end
    }
}

// Operator and kind, copied, and the comment.
fn move_title(form: Form, to: Form, sheet: &[u8], at: usize, out: &mut [u8], place: usize) -> usize
    requires readable { Readable (as_form form) (sheet_bits sheet.now) at × (at < 2 ^ 25) }
    requires at_bound { (rule_read_at (as_form form) (sheet_bits sheet.now) at).state.comment < 2 ^ (as_form to).comment }
    requires room_for { RoomFor (length out.old) place ((title (as_form to) sheet_limits).write (head_of (rule_read_at (as_form form) (sheet_bits sheet.now) at)).0) }
    ensures { Wrote out.old place ((title (as_form to) sheet_limits).write (head_of (rule_read_at (as_form form) (sheet_bits sheet.now) at)).0) out.new result }
{
    copy_bits(sheet, at, 4, out, place);
    put(
        out,
        place + 4,
        comment_width(to),
        field_at(sheet, at + 4, comment_width(form)),
    )
}

// The five counts that stand at a bit. They were read before, so the first return is never taken.
fn move_counts(form: Form, to: Form, sheet: &[u8], at: usize, out: &mut [u8], place: usize) -> usize
    requires by_index { (n : Counts) × (next : ℕ) × ((counts (as_form form) sheet_limits).read (sheet_bits sheet.now) at ≡ got n next)
        × RoomFor (length out.old) place ((counts (as_form to) sheet_limits).write n) }
    requires at_bound { at < 2 ^ 31 }
    ensures { (n : Counts) (next : ℕ) → (counts (as_form form) sheet_limits).read (sheet_bits sheet.now) at ≡ got n next
        → Wrote out.old place ((counts (as_form to) sheet_limits).write n) out.new result }
{
    let Ok((counts, _)) = counts_at(form, sheet, at) else {
        return place;
    };
    let item_counts = [
        counts.years as u16,
        counts.monthdays as u16,
        counts.weeks as u16,
        counts.weekdays as u16,
    ];
    put_counts(to, out, place, &item_counts, counts.spans)
}

// The rule that stands from `at` up to `end`; answers the place after it.
pub fn move_rule(
    form: Form,
    to: Form,
    sheet: &[u8],
    at: usize,
    end: usize,
    out: &mut [u8],
    place: usize,
) -> usize
    requires at_bound { ((readable : Readable (as_form form) (sheet_bits sheet.now) at) × (end ≡ readable.end)) × (at < 2 ^ 25) }
    requires at_bound_2 { (rule_read_at (as_form form) (sheet_bits sheet.now) at).state.comment < 2 ^ (as_form to).comment }
    requires room_for { RoomFor (length out.old) place ((rule (as_form to) sheet_limits).write (rule_read_at (as_form form) (sheet_bits sheet.now) at)) }
    ensures { Wrote out.old place ((rule (as_form to) sheet_limits).write (rule_read_at (as_form form) (sheet_bits sheet.now) at)) out.new result }
{
    let counts_place = move_title(form, to, sheet, at, out, place);
    let body_place = move_counts(form, to, sheet, at + title_width(form), out, counts_place);
    let body = at + head_width(form);
    copy_bits(sheet, body, end - body, out, body_place);
    body_place + (end - body)
}
