// A rule's head: operator and state, and five counts.
ghost use Rattle.std.specs.Prelude.{◌≤◌, ◌<◌, ◌^◌, length};
ghost use Rattle.definition.specs.Field.{Layout};
ghost use Rattle.definition.specs.Sheet.{sheet_limits};
ghost use Rattle.definition.specs.Sheet as sheet;
ghost use Rattle.codes.specs.Number.{state_coded};
ghost use Rattle.forms.specs.Form.{as_form};
ghost use Rattle.item_writer.specs.Written.{RoomFor, Wrote};
ghost use Rattle.tables.specs.Items.{FewItems};
ghost use Rattle.rule_writer.specs.Rows.{title_of, counts_of};

use field::width;
use forms::{Form, comment_width, item_count_width};
use item_writer::put::Fields;

// "Rule: operator 2 (0 Normal, 1 Additional, 2 Fallback); kind 2 (0 Open, 1 Closed, 2 Unknown); comment 16", 24 in form 2.
pub fn put_title(form: Form, out: &mut [u8], at: usize, operator: u64, state: u64) -> usize
    requires operator_bound { (operator < 3) × ((state_coded state).comment < 2 ^ (as_form form).comment) }
    requires room_for { RoomFor (length out.old) at ((sheet.title (as_form form) sheet_limits).write (title_of operator state)) }
    ensures { Wrote out.old at ((sheet.title (as_form form) sheet_limits).write (title_of operator state)) out.new result }
{
    let title = Fields::new(width::CHOICE, operator)
        .then(width::CHOICE, u64::from(codes::kind_of(state)))
        .then(comment_width(form), codes::comment_of(state));
    title.put(out, at)
}

// "five counts of 10 each: years, monthdays, weeks, weekdays, spans", of 12 in form 2.
pub fn put_counts(form: Form, out: &mut [u8], at: usize, item_counts: &[u16], spans: u64) -> usize
    requires in_bounds { (4 ≤ length item_counts.now) × FewItems (as_form form) item_counts.now × (spans < 2 ^ 10) }
    requires room_for { RoomFor (length out.old) at ((sheet.counts (as_form form) sheet_limits).write (counts_of item_counts.now spans)) }
    ensures { Wrote out.old at ((sheet.counts (as_form form) sheet_limits).write (counts_of item_counts.now spans)) out.new result }
{
    let width = item_count_width(form);
    let dates = Fields::new(width, u64::from(item_counts[0]))
        .then(width, u64::from(item_counts[1]))
        .then(width, u64::from(item_counts[2]));
    let weekdays_at = dates.put(out, at);
    let rest = Fields::new(width, u64::from(item_counts[3])).then(width, spans);
    rest.put(out, weekdays_at)
}
