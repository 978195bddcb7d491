// Writes a whole rule: its head, its rows of items and its spans.
ghost use mathlib.Core.List.{map};
ghost use Rattle.std.specs.Prelude.{◌<◌, ◌^◌, length};
ghost use Rattle.laws.specs.Lists.{All};
ghost use Rattle.codes.specs.Number.{state_coded, span_at};
ghost use Rattle.forms.specs.Form.{as_form};
ghost use Rattle.item_writer.specs.Written.{RoomFor, Wrote};
ghost use Rattle.tables.specs.Items.{FewItems, Rows};
ghost use Rattle.tables.specs.Days.{FitsSpan};
ghost use Rattle.rule_writer.specs.Written.{rule_bits};

use crate::head::{put_counts, put_title};
use crate::row::{put_rows, put_spans};
use forms::Form;

// The rule has an operator and a state, by their numbers, rows of items' ends, and spans by their numbers.
pub fn put_rule(
    form: Form,
    out: &mut [u8],
    at: usize,
    operator: u64,
    state: u64,
    ends: &[u16],
    item_counts: &[u16],
    spans: &[u64],
) -> usize
    requires operator_bound { (operator < 3) × ((state_coded state).comment < 2 ^ (as_form form).comment) }
    requires rows { Rows ends.now item_counts.now × FewItems (as_form form) item_counts.now }
    requires span_count_in_bounds { (length spans.now < 2 ^ 10) × All FitsSpan (map span_at spans.now) }
    requires room_for { RoomFor (length out.old) at (rule_bits (as_form form) operator state ends.now item_counts.now (map span_at spans.now)) }
    ensures { Wrote out.old at (rule_bits (as_form form) operator state ends.now item_counts.now (map span_at spans.now)) out.new result }
{
    let counts_at = put_title(form, out, at, operator, state);
    let rows_at = put_counts(form, out, counts_at, item_counts, spans.len() as u64);
    let spans_at = put_rows(out, rows_at, ends, item_counts);
    put_spans(out, spans_at, spans)
}
