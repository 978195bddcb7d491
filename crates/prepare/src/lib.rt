// What the fold and the lookup have in common: the drained rules of a sheet that was read, in tables, judged by 11 and 5, and the rows of their
// cuts. From here on the tables are read, and no sheet.
#![tactic(auto)]

ghost use Rattle.std.specs.Prelude.{◌≡◌, List, ◌*◌, ◌≤◌, length};
ghost use Rattle.definition.specs.Rule.{Rule};
ghost use Rattle.forms.specs.Form.{as_form};
ghost use Rattle.tables.specs.Sizes.{row_places};
ghost use Rattle.tables.specs.Rules.{RuleDays};
ghost use Rattle.prepare.specs.Prepared.{RulesRead, EachReading, JudgesDays, Judges};

use answers::{Reason, Refusal};
use draining::Drained;
use forms::Form;
use limits::boxes_over;

// Judges so many rules out of the tables of their days: 11 where one has days typed twice; then, with the rows of their cuts made, 5 where there are
// too many boxes between them. Rules that pass are answered as they were told: how many, and why the next one stopped.
fn judge(
    cuts: &mut [u16],
    sizes: &mut [u16],
    row_starts: &mut [u16],
    range_counts: &[u16],
    ranges: &[u16],
    drained: Drained,
) -> Result<Drained, Refusal>
    requires rule_days { (ds : List Rule) × RuleDays range_counts.now ranges.now drained.rules ds }
    requires row_starts_len { (length row_starts.old ≡ 4) × (length sizes.old ≡ 4) × (4 * row_places drained.rules ≤ length cuts.old) }
    ensures { (ds : List Rule) → RuleDays range_counts.now ranges.now drained.rules ds
        → JudgesDays row_starts.new sizes.new cuts.new drained.rules drained.why ds result }
{
    let twice = overlap::first_overlap(range_counts, ranges, drained.rules);
    if twice < drained.rules {
        return Err(Refusal {
            reason: Reason::DaysTwice,
            place: twice,
        });
    }
    let boxes = cutting::cut_all(cuts, sizes, row_starts, range_counts, ranges, drained.rules);
    if boxes_over(boxes) {
        return Err(Refusal {
            reason: Reason::ManyBoxes,
            place: boxes as usize,
        });
    }
    Ok(drained)
}

// The drained rules of a sheet that was read, in tables, and the rows of their cuts; or 11 where one of them has days typed twice, or 5 where there
// are too many boxes between the cuts.
pub fn prepare(
    form: Form,
    sheet: &[u8],
    begins: &[usize],
    count: usize,
    states: &mut [u32],
    span_counts: &mut [u8],
    spans: &mut [u64],
    replacing: &mut [u8],
    range_counts: &mut [u16],
    ranges: &mut [u16],
    row_starts: &mut [u16],
    sizes: &mut [u16],
    cuts: &mut [u16],
) -> Result<Drained, Refusal>
    requires rules_read { RulesRead (as_form form) sheet.now begins.now count }
    requires count_in_bounds { (count ≤ length states.old) × (count ≤ length span_counts.old) × (count * 16 ≤ length spans.old) × (count ≤ length replacing.old) }
    requires count_in_bounds_2 { (count * 4 ≤ length range_counts.old) × (count * 256 ≤ length ranges.old) }
    requires row_starts_len { (length row_starts.old ≡ 4) × (length sizes.old ≡ 4) × (4 * row_places count ≤ length cuts.old) }
    ensures { EachReading (as_form form) sheet.now begins.now count
        (λ rs. Judges states.new span_counts.new spans.new replacing.new range_counts.new ranges.new
        row_starts.new sizes.new cuts.new rs result) }
{
    let drained = draining::drain(
        form,
        sheet,
        begins,
        count,
        states,
        span_counts,
        spans,
        replacing,
        range_counts,
        ranges,
    );
    judge(cuts, sizes, row_starts, range_counts, ranges, drained)
}
