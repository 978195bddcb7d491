// The fields of the packed sheet, read at a bit: one reader, which takes the whole bytes that a field spans, and above it one small function
// for each field that not every value of its width may stand in. Where eight bytes are left, they are taken as one number of 56 bits: a machine
// loads them at once, and no item of a sheet has more bits. Positions stay below `2 ^ 32`: the crates above show that no lawful sheet reaches further.
#![tactic(auto)]

pub mod bounds;
pub mod width;

ghost use Rattle.std.specs.Prelude.{◌≡◌, Bool, ℕ, ◌+◌, ◌*◌, ◌-◌, ◌/◌, ◌%◌, ◌≤◌, ◌<◌, ◌^◌, length};
ghost use Rattle.grid.specs.Cut.{holds};
ghost use Rattle.definition.specs.Field.{Layout, sheet_bits, field_at, field, plain, lawful, counted};
ghost use Rattle.definition.specs.Sheet.{sheet_limits, year, month, week, weekday, step, choice, minutes};
ghost use Rattle.forms.specs.Form.{as_form};
ghost use Rattle.answers.specs.Refusal.{code_of};
ghost use Rattle.field.specs.Answer.{Tests, as_read};
ghost use Rattle.field.specs.Wide.{Wide};

use answers::{Read, Reason, Refusal};
use forms::{Form, comment_width, item_count_width, rule_count_width};
use limits::{items_allowed, rules_allowed};
use std::ops::Range;

// The last bits of a number, as many as `count`.
pub fn low_bits(number: u64, count: usize) -> u64
    requires { count < 64 }
    ensures { result ≡ number % 2 ^ count }
{
    number & ((1 << count) - 1)
}

// Of a number the `width` bits that stand before its last `behind`.
pub fn part(number: u64, behind: usize, width: usize) -> u64
    requires { (behind < 64) × (width < 64) }
    ensures { result ≡ number / 2 ^ behind % 2 ^ width }
{
    low_bits(number >> behind, width)
}

// The number in whole bytes, from the byte `first` up to `past`, most significant first.
pub fn bytes_at(sheet: &[u8], first: usize, past: usize) -> u64
    requires { (first ≤ past) × (past ≤ first + 8) × (past ≤ length sheet.now) }
    ensures { result ≡ field_at (sheet_bits sheet.now) (8 * first) (8 * (past - first)) }
{
    let mut number: u64 = 0;
    for byte in &sheet[first..past] {
        number = number * 256 + u64::from(*byte);
    }
    number
}

// The 56 bits at a place, where eight bytes are left: what stands before them in the first byte is shifted out.
pub fn wide_at(sheet: &[u8], at: usize) -> u64
    requires { (at < 2 ^ 32) × (at / 8 + 8 ≤ length sheet.now) }
    ensures { Wide (sheet_bits sheet.now) at 56 result }
{
    let first = at / 8;
    (bytes_at(sheet, first, first + 8) << (at % 8)) >> 8
}

// The number in the `width` bits at a place: the first of 56; of the last bytes of a sheet that of the whole bytes which they span, less the bits
// behind them and those before.
pub fn field_at(sheet: &[u8], at: usize, width: usize) -> u64
    requires { (width ≤ 32) × (at < 2 ^ 32) × (at + width ≤ 8 * length sheet.now) }
    ensures { result ≡ field_at (sheet_bits sheet.now) at width }
{
    if at / 8 + 8 <= sheet.len() {
        return wide_at(sheet, at) >> (56 - width);
    }
    let end = at + width;
    let past = (end + 7) / 8;
    let spanned = bytes_at(sheet, at / 8, past);
    low_bits(spanned >> (8 * past - end), width)
}

// A field of any value; refused where it runs past the end.
pub fn take_at(sheet: &[u8], at: usize, width: usize) -> Read<u64>
    requires { (width ≤ 32) × (at < 2 ^ 32) }
    ensures { as_read result ≡ (plain width).read (sheet_bits sheet.now) at }
{
    if (at + width + 7) / 8 <= sheet.len() {
        Ok((field_at(sheet, at, width), at + width))
    } else {
        Err(Refusal {
            reason: Reason::PastEnd,
            place: at,
        })
    }
}

// A field whose value passes a test; refused for this reason where it doesn't.
fn tested_at<F: Fn(u64) -> bool>(
    sheet: &[u8],
    at: usize,
    width: usize,
    reason: Reason,
    passes: F,
) -> Read<u64>
    requires near { (width ≤ 32) × (at < 2 ^ 32) }
    requires callable { F.IsAlwaysCallable passes }
    ensures { (ok : ℕ → Bool) → Tests (F.post passes) ok → as_read result ≡ (field (code_of reason) ok width).read (sheet_bits sheet.now) at }
{
    let (value, next) = take_at(sheet, at, width)?;
    if passes(value) {
        Ok((value, next))
    } else {
        Err(Refusal { reason, place: at })
    }
}

// An operator, a kind, a monthday's tag: 0, 1 or 2.
pub fn choice_at(sheet: &[u8], at: usize) -> Read<u64>
    requires { at < 2 ^ 32 }
    ensures { as_read result ≡ choice.read (sheet_bits sheet.now) at }
{
    tested_at(
        sheet,
        at,
        width::CHOICE,
        Reason::Unlawful,
        |value| value < 3,
    )
}

// A comment, of any value.
pub fn comment_at(form: Form, sheet: &[u8], at: usize) -> Read<u64>
    requires { at < 2 ^ 32 }
    ensures { as_read result ≡ (plain (as_form form).comment).read (sheet_bits sheet.now) at }
{
    take_at(sheet, at, comment_width(form))
}

// How many items of a sort, or spans: no more than the limit.
pub fn count_at(form: Form, sheet: &[u8], at: usize) -> Read<u64>
    requires { at < 2 ^ 32 }
    ensures { as_read result ≡ (counted (as_form form).item_count sheet_limits.items).read (sheet_bits sheet.now) at }
{
    tested_at(
        sheet,
        at,
        item_count_width(form),
        Reason::OverLimit,
        items_allowed,
    )
}

// How many rules: no more than the limit.
pub fn rule_count_at(form: Form, sheet: &[u8], at: usize) -> Read<u64>
    requires { at < 2 ^ 32 }
    ensures { as_read result ≡ (counted (as_form form).rule_count sheet_limits.rules).read (sheet_bits sheet.now) at }
{
    tested_at(
        sheet,
        at,
        rule_count_width(form),
        Reason::OverLimit,
        rules_allowed,
    )
}

// A field whose lawful values are those of a range.
pub fn within_at(sheet: &[u8], at: usize, width: usize, bounds: &Range<u64>) -> Read<u64>
    requires { (width ≤ 32) × (at < 2 ^ 32) }
    ensures { as_read result ≡ (lawful width (λ v. holds v (bounds.now.start, bounds.now.end))).read (sheet_bits sheet.now) at }
{
    tested_at(
        sheet,
        at,
        width,
        Reason::Unlawful,
        |value| bounds.contains(&value),
    )
}

// A year, 1900 to 9999.
pub fn year_at(sheet: &[u8], at: usize) -> Read<u64>
    requires { at < 2 ^ 32 }
    ensures { as_read result ≡ year.read (sheet_bits sheet.now) at }
{
    within_at(sheet, at, width::YEAR, &bounds::YEAR)
}

// A month, 1 to 12.
pub fn month_at(sheet: &[u8], at: usize) -> Read<u64>
    requires { at < 2 ^ 32 }
    ensures { as_read result ≡ month.read (sheet_bits sheet.now) at }
{
    within_at(sheet, at, width::MONTH, &bounds::MONTH)
}

// A week, 1 to 53.
pub fn week_at(sheet: &[u8], at: usize) -> Read<u64>
    requires { at < 2 ^ 32 }
    ensures { as_read result ≡ week.read (sheet_bits sheet.now) at }
{
    within_at(sheet, at, width::WEEK, &bounds::WEEK)
}

// A weekday, 0 Monday to 6 Sunday.
pub fn weekday_at(sheet: &[u8], at: usize) -> Read<u64>
    requires { at < 2 ^ 32 }
    ensures { as_read result ≡ weekday.read (sheet_bits sheet.now) at }
{
    within_at(sheet, at, width::WEEKDAY, &bounds::WEEKDAY)
}

// A fixed time's minutes, 0 to 2880.
pub fn minutes_at(sheet: &[u8], at: usize) -> Read<u64>
    requires { at < 2 ^ 32 }
    ensures { as_read result ≡ minutes.read (sheet_bits sheet.now) at }
{
    tested_at(
        sheet,
        at,
        width::MINUTES,
        Reason::Unlawful,
        |value| value <= 2880,
    )
}

// A step of years or weeks, from 1.
pub fn step_at(sheet: &[u8], at: usize, width: usize) -> Read<u64>
    requires { (width ≤ 32) × (at < 2 ^ 32) }
    ensures { as_read result ≡ (step width).read (sheet_bits sheet.now) at }
{
    tested_at(sheet, at, width, Reason::Unlawful, |value| 1 <= value)
}
