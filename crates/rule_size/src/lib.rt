// How many bits items, rows, spans and a whole rule take, before anything is written: the lengths of what `rule_writer` writes.
#![tactic(auto)]

ghost use Rattle.std.specs.Prelude.{◌≡◌, ℕ, ◌*◌, ◌≤◌, ◌<◌, ◌^◌, length, get_or};
ghost use mathlib.Core.List.{List, map, flat_map};
ghost use Rattle.definition.specs.Field.{Layout};
ghost use Rattle.definition.specs.Range.{Ends};
ghost use Rattle.definition.specs.Sheet.{time, span};
ghost use Rattle.forms.specs.Form.{as_form};
ghost use Rattle.codes.specs.Number.{time_at, span_at};
ghost use Rattle.rule_writer.specs.Rows.{item_bits, rows_bits};
ghost use Rattle.tables.specs.Items.{row_place};
ghost use Rattle.rule_writer.specs.Written.{rule_bits};

use field::width;
use forms::{Form, head_width};

// An item of a sort, whatever its ends: 0 years, 1 months, 2 weeks, 3 weekdays. A sort is the place of its count among the counts, so it stays a number.
fn item_bits(sort: usize) -> usize
    ensures { ((e : Ends) → length (item_bits sort e) ≡ result) × (result ≤ 44) }
{
    match sort {
        0 => width::YEAR + width::YEAR + width::YEAR_STEP,
        1 => width::CHOICE + width::MONTH + width::MONTH,
        2 => width::WEEK + width::WEEK + width::WEEK_STEP,
        _ => {
            width::FLAG + width::WEEKDAY + width::WEEKDAY + width::OFFSET + width::NTH + width::NTH
        }
    }
}

// The rows of the four sorts, whatever their ends.
fn rows_bits(item_counts: &[u16]) -> usize
    requires { (4 ≤ length item_counts.now) × ((s : ℕ) → get_or item_counts.now s 0 < 2 ^ 12) }
    ensures { ((ends : List ℕ) → row_place item_counts.now 4 ≤ length ends → length (rows_bits ends item_counts.now 0) ≡ result) × (result ≤ 720896) }
{
    let mut bits: usize = 0;
    for sort in 0..4 {
        bits += usize::from(item_counts[sort]) * item_bits(sort);
    }
    bits
}

fn time_bits(number: u64) -> usize
    ensures { (length (time.write (time_at number)) ≡ result) × (result ≤ 19) }
{
    if number < 262144 {
        width::FLAG + width::MINUTES
    } else {
        width::FLAG + width::EVENT + width::OFFSET
    }
}

fn span_bits(number: u64) -> usize
    ensures { (length (span.write (span_at number)) ≡ result) × (result ≤ 52) }
{
    let start = time_bits(codes::start_of(number));
    let end = time_bits(codes::end_of(number));
    if number % 8192 == 0 {
        start + end + width::FLAG + width::FLAG
    } else {
        start + end + width::FLAG + width::FLAG + width::REPEATS
    }
}

fn spans_bits(spans: &[u64]) -> usize
    requires { length spans.now < 2 ^ 10 }
    ensures { (length (flat_map span.write (map span_at spans.now)) ≡ result) × (result ≤ 52 * length spans.now) }
{
    let mut bits: usize = 0;
    for span in spans {
        bits += span_bits(*span);
    }
    bits
}

// A whole rule, whatever its operator, its state and its ends.
pub fn rule_bits(form: Form, item_counts: &[u16], spans: &[u64]) -> usize
    requires in_bounds { (4 ≤ length item_counts.now) × ((s : ℕ) → get_or item_counts.now s 0 < 2 ^ 12) }
    requires span_count_in_bounds { length spans.now < 2 ^ 10 }
    ensures { ((operator state : ℕ) (ends : List ℕ) → row_place item_counts.now 4 ≤ length ends
        → length (rule_bits (as_form form) operator state ends item_counts.now (map span_at spans.now)) ≡ result) × (result < 2 ^ 20) }
{
    head_width(form) + rows_bits(item_counts) + spans_bits(spans)
}
