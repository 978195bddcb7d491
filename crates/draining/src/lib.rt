// Draining: "Rules before the first stopper, in order", each with its state, its spans, its ranges and whether it replaces, in tables; and why
// the first stopper stops. What comes after the draining reads the tables and no sheet.
#![tactic(auto)]

pub mod rule;
pub mod span;

ghost use Rattle.std.specs.Prelude.{◌≡◌, ◌*◌, ◌≤◌, length};
ghost use Rattle.definition.specs.Field.{sheet_bits};
ghost use Rattle.definition.specs.Stop.{drained, why};
ghost use Rattle.forms.specs.Form.{as_form};
ghost use Rattle.sheet.specs.Rules.{AllBegin};
ghost use Rattle.draining.specs.Table.{Tabled, rules_from};

use forms::Form;

// How many rules were drained, and why the next one stopped, by the number that C gets, 0 where there is none.
#[derive(Clone, Copy)]
pub struct Drained {
    pub rules: usize,
    pub why: u64,
}

// Drains the rules that begin at the noted bits; the tables then hold them.
pub fn drain(
    form: Form,
    sheet: &[u8],
    begins: &[usize],
    count: usize,
    states: &mut [u32],
    span_counts: &mut [u8],
    spans: &mut [u64],
    replacing: &mut [u8],
    range_counts: &mut [u16],
    ranges: &mut [u16],
) -> Drained
    requires all_begin { AllBegin (as_form form) (sheet_bits sheet.now) begins.now count }
    requires count_in_bounds { (count ≤ length begins.now) × (count ≤ length states.old) × (count ≤ length span_counts.old) × (count * 16 ≤ length spans.old) × (count ≤ length replacing.old) }
    requires count_in_bounds_2 { (count * 4 ≤ length range_counts.old) × (count * 256 ≤ length ranges.old) }
    ensures { (result.rules ≡ length (drained (rules_from (as_form form) (sheet_bits sheet.now) begins.now 0 count)))
        × (result.why ≡ why (rules_from (as_form form) (sheet_bits sheet.now) begins.now 0 count))
        × Tabled states.new span_counts.new spans.new replacing.new range_counts.new ranges.new
        (drained (rules_from (as_form form) (sheet_bits sheet.now) begins.now 0 count)) }
{
    for i in 0..count {
        let at = begins[i];
        if crate::rule::drain_rule(
            form,
            sheet,
            at,
            i,
            states,
            span_counts,
            spans,
            replacing,
            &mut range_counts[i * 4..i * 4 + 4],
            &mut ranges[i * 256..i * 256 + 256],
        ) {
            return Drained {
                rules: i,
                why: stopping::rule::reason_at(form, sheet, at),
            };
        }
    }
    Drained {
        rules: count,
        why: 0,
    }
}
