// One rule, from the sheet to the tables; or that it stops.
ghost use Rattle.std.specs.Prelude.{◌≡◌, map, cond, ◌+◌, ◌*◌, ◌≤◌, ◌<◌, ◌^◌, length};
ghost use Rattle.std.proofs.lemmas.List.Edits.{sets};
ghost use Rattle.std.proofs.Math.Option.{none, some};
ghost use Rattle.definition.specs.Field.{sheet_bits};
ghost use Rattle.definition.specs.Stop.{stops};
ghost use Rattle.forms.specs.Form.{as_form};
ghost use Rattle.sheet.specs.Begin.{rule_read_at, Readable};
ghost use Rattle.canonical_date.specs.Days.{days_loaded};
ghost use Rattle.codes.specs.Number.{span_number};
ghost use Rattle.draining.specs.Rule.{loaded_spans, parts_stop, load_of, SetRule, DrainedRule};

use crate::span::load_spans;
use canonical_date::days::rule_ranges;
use codes::title::{is_fallback, replace_number, state_number};
use forms::Form;
use sheet::rule::title_at;

// A rule's ranges, and its spans in their row of the table. Answers how many spans it has, or nothing where an item or a span stops it.
fn load_rule(
    form: Form,
    sheet: &[u8],
    at: usize,
    rule: usize,
    spans: &mut [u64],
    ranges: &mut [u16],
    range_counts: &mut [u16],
) -> Option<u64>
    requires readable { Readable (as_form form) (sheet_bits sheet.now) at }
    requires at_bound { (at < 2 ^ 25) × (rule * 16 + 16 ≤ length spans.old) × (256 ≤ length ranges.old) × (4 ≤ length range_counts.old) }
    ensures { (load_of result ≡ cond (parts_stop (rule_read_at (as_form form) (sheet_bits sheet.now) at)) none (some (length (rule_read_at (as_form form) (sheet_bits sheet.now) at).spans)))
        × (spans.new ≡ sets spans.old (rule * 16) (map span_number (loaded_spans (rule_read_at (as_form form) (sheet_bits sheet.now) at))))
        × (ranges.new ≡ (days_loaded (as_form form) (sheet_bits sheet.now) at ranges.old range_counts.old).ranges)
        × (range_counts.new ≡ (days_loaded (as_form form) (sheet_bits sheet.now) at ranges.old range_counts.old).counts) }
{
    let found = rule_ranges(form, sheet, at, ranges, range_counts)?;
    if load_spans(sheet, found.at, found.count, spans, rule * 16) {
        return None;
    }
    Some(found.count)
}

// A rule's state, its number of spans and whether it replaces, in the tables; unless it is a Fallback, which stops. The title was read before, so the
// first return is never taken.
fn set_rule(
    form: Form,
    sheet: &[u8],
    at: usize,
    rule: usize,
    count: u64,
    states: &mut [u32],
    span_counts: &mut [u8],
    replacing: &mut [u8],
) -> bool
    requires readable { Readable (as_form form) (sheet_bits sheet.now) at }
    requires at_bound { (at < 2 ^ 25) × (count ≤ 16) × (rule < length states.old) × (rule < length span_counts.old) × (rule < length replacing.old) }
    ensures { SetRule (rule_read_at (as_form form) (sheet_bits sheet.now) at) rule count states.old span_counts.old replacing.old
        states.new span_counts.new replacing.new result }
{
    let Ok((title, _)) = title_at(form, sheet, at) else {
        return true;
    };
    if is_fallback(title.operator) {
        return true;
    }
    states[rule] = state_number(title.kind, title.comment);
    span_counts[rule] = count as u8;
    replacing[rule] = replace_number(title.operator, title.kind);
    false
}

// Drains the rule at a bit into the tables; or answers that it stops.
pub fn drain_rule(
    form: Form,
    sheet: &[u8],
    at: usize,
    rule: usize,
    states: &mut [u32],
    span_counts: &mut [u8],
    spans: &mut [u64],
    replacing: &mut [u8],
    range_counts: &mut [u16],
    ranges: &mut [u16],
) -> bool
    requires readable { Readable (as_form form) (sheet_bits sheet.now) at }
    requires at_bound { (at < 2 ^ 25) × (rule * 16 + 16 ≤ length spans.old) × (rule < length states.old) × (rule < length span_counts.old) × (rule < length replacing.old) }
    requires in_bounds { (256 ≤ length ranges.old) × (4 ≤ length range_counts.old) }
    ensures { (result ≡ stops (rule_read_at (as_form form) (sheet_bits sheet.now) at))
        × DrainedRule (rule_read_at (as_form form) (sheet_bits sheet.now) at) rule states.old span_counts.old spans.old replacing.old
        states.new span_counts.new spans.new replacing.new
        × (ranges.new ≡ (days_loaded (as_form form) (sheet_bits sheet.now) at ranges.old range_counts.old).ranges)
        × (range_counts.new ≡ (days_loaded (as_form form) (sheet_bits sheet.now) at ranges.old range_counts.old).counts) }
{
    let Some(count) = load_rule(form, sheet, at, rule, spans, ranges, range_counts) else {
        return true;
    };
    set_rule(form, sheet, at, rule, count, states, span_counts, replacing)
}
