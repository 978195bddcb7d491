// The tables that the drained rules of a lookup go to, no larger than so many rules may need: clearing those of 256 rules would take longer than a lookup in a
// sheet of a few.
ghost use Rattle.std.specs.Prelude.{◌≡◌, ◌*◌, ◌^◌, ◌≤◌, ◌<◌};
ghost use Rattle.definition.specs.Point.{all_bounds};
ghost use Rattle.answers.specs.Numbers.{looked_up};
ghost use Rattle.tables.specs.Sizes.{row_places};
ghost use Rattle.forms.specs.Form.{as_form};
ghost use Rattle.prepare.specs.Prepared.{RulesRead, EachReading};
ghost use Rattle.state_at.specs.Boxes.{InBounds, moment_point};
ghost use Rattle.lookup.specs.Looks.{look_at};

use super::look_moment_in;
use answers::Answer;
use forms::Form;
use state_at::Moment;

// Looks a moment up in tables of its own, for so many rules: their spans, the counts of their ranges, the ranges, and the rows of cuts. It is never put
// into its caller, so that a sheet of few rules has small arrays on its stack only.
#[inline(never)]
fn look_tabled<
    const RULES: usize,
    const SPANS: usize,
    const COUNTS: usize,
    const RANGES: usize,
    const CUTS: usize,
>(form: Form, sheet: &[u8], begins: &[usize], count: usize, moment: Moment) -> Answer
    requires rules_read { RulesRead (as_form form) sheet.now begins.now count }
    requires in_bounds { InBounds all_bounds (moment_point moment) }
    requires room { (count ≤ RULES) × (count * 16 ≤ SPANS) × (count * 4 ≤ COUNTS) × (count * 256 ≤ RANGES) × (4 * row_places count ≤ CUTS) }
    requires small { (RULES < 2 ^ 32) × (SPANS < 2 ^ 32) × (COUNTS < 2 ^ 32) × (RANGES < 2 ^ 32) × (CUTS < 2 ^ 32) }
    ensures { EachReading (as_form form) sheet.now begins.now count (λ rs. looked_up result ≡ look_at rs (moment_point moment) moment.minute) }
{
    let mut states = [0u32; RULES];
    let mut span_counts = [0u8; RULES];
    let mut spans = [0u64; SPANS];
    let mut replacing = [0u8; RULES];
    let mut range_counts = [0u16; COUNTS];
    let mut ranges = [0u16; RANGES];
    let mut cuts = [0u16; CUTS];
    look_moment_in(
        form,
        sheet,
        begins,
        count,
        moment,
        &mut states,
        &mut span_counts,
        &mut spans,
        &mut replacing,
        &mut range_counts,
        &mut ranges,
        &mut cuts,
    )
}

// The same, with no larger tables than so many rules may need: by a match, since a const argument can't be computed.
pub fn look_moment(
    form: Form,
    sheet: &[u8],
    begins: &[usize],
    count: usize,
    moment: Moment,
) -> Answer
    requires rules_read { RulesRead (as_form form) sheet.now begins.now count }
    requires in_bounds { InBounds all_bounds (moment_point moment) }
    ensures { EachReading (as_form form) sheet.now begins.now count (λ rs. looked_up result ≡ look_at rs (moment_point moment) moment.minute) }
{
    match count {
        0..=4 => look_tabled::<4, 64, 16, 1024, 1032>(form, sheet, begins, count, moment),
        5..=32 => look_tabled::<32, 512, 128, 8192, 8200>(form, sheet, begins, count, moment),
        33..=64 => look_tabled::<64, 1024, 256, 16384, 16392>(form, sheet, begins, count, moment),
        _ => look_tabled::<256, 4096, 1024, 65536, 65544>(form, sheet, begins, count, moment),
    }
}
