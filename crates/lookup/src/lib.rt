// State lookup in a checked sheet: "kind and comment of the last covering span in that point's list, else Closed and 0". Refusals: 8, 11, 5, 6, 14, 9.
#![tactic(auto)]

pub mod boxes;
mod point;
mod rooms;

ghost use Rattle.std.specs.Prelude.{◌≡◌, ◌*◌, ◌≤◌, length};
ghost use Rattle.definition.specs.Sheet.{sheet_limits};
ghost use Rattle.definition.specs.Point.{all_bounds};
ghost use Rattle.definition.specs.Lookup.{lookup};
ghost use Rattle.answers.specs.Numbers.{looked_up};
ghost use Rattle.tables.specs.Sizes.{row_places};
ghost use Rattle.forms.specs.Form.{as_form};
ghost use Rattle.prepare.specs.Prepared.{RulesRead, EachReading};
ghost use Rattle.state_at.specs.Boxes.{InBounds, moment_point};
ghost use Rattle.lookup.specs.Looks.{look_at};

use answers::{Answer, Reason, Refusal};
use forms::Form;
use limits::past_midnight;
use point::look_drained;
use prepare::prepare;
use rooms::look_moment;
use state_at::Moment;
use tables::lent::{Cuts, DrainedRules};

// No such date or minute; and a rule that is left.
const NO_DATE: Refusal = Refusal {
    reason: Reason::NoDate,
    place: 0,
};

const RULE_LEFT: Refusal = Refusal {
    reason: Reason::Unsettled,
    place: 0,
};

// Drains the rules and cuts the dimensions (11, 5), in the tables that are lent, then looks the moment up.
fn look_moment_in(
    form: Form,
    sheet: &[u8],
    begins: &[usize],
    count: usize,
    moment: Moment,
    states: &mut [u32],
    span_counts: &mut [u8],
    spans: &mut [u64],
    replacing: &mut [u8],
    range_counts: &mut [u16],
    ranges: &mut [u16],
    cuts: &mut [u16],
) -> Answer
    requires rules_read { RulesRead (as_form form) sheet.now begins.now count }
    requires in_bounds { InBounds all_bounds (moment_point moment) }
    requires rule_room { (count ≤ length states.old) × (count ≤ length span_counts.old) × (count * 16 ≤ length spans.old) × (count ≤ length replacing.old) }
    requires range_room { (count * 4 ≤ length range_counts.old) × (count * 256 ≤ length ranges.old) × (4 * row_places count ≤ length cuts.old) }
    ensures { EachReading (as_form form) sheet.now begins.now count (λ rs. looked_up result ≡ look_at rs (moment_point moment) moment.minute) }
{
    let mut row_starts = [0u16; 4];
    let mut sizes = [0u16; 4];
    let prepared = prepare(
        form,
        sheet,
        begins,
        count,
        states,
        span_counts,
        spans,
        replacing,
        range_counts,
        ranges,
        &mut row_starts,
        &mut sizes,
        cuts,
    );
    match prepared {
        Ok(drained) => {
            let places = drained.rules * 16;
            let rules = DrainedRules {
                states: &states[..drained.rules],
                span_counts: &span_counts[..drained.rules],
                spans: &spans[..places],
                replacing,
                range_counts,
                ranges,
            };
            let cuts = Cuts {
                row_starts: &row_starts,
                sizes: &sizes,
                cuts,
            };
            look_drained(rules, cuts, count - drained.rules, moment)
        }
        Err(refusal) => Answer::refused(refusal),
    }
}

// Tests the date and the minute (8), then looks them up.
pub fn look_rules(
    form: Form,
    sheet: &[u8],
    begins: &[usize],
    count: usize,
    year: u64,
    month: u64,
    day: u64,
    minute: u64,
) -> Answer
    requires { RulesRead (as_form form) sheet.now begins.now count }
    ensures { looked_up result ≡ lookup (as_form form) sheet_limits sheet.now year month day minute }
{
    if past_midnight(minute) {
        return Answer::refused(NO_DATE);
    }
    let Some(point) = calendar::point_of(year, month, day) else {
        return Answer::refused(NO_DATE);
    };
    let moment = Moment {
        point,
        minute: minute as u16,
    };
    look_moment(form, sheet, begins, count, moment)
}
