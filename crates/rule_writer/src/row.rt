// Rows of items: pairs of ends of one sort, the four sorts one behind the other, and spans from their numbers.
ghost use mathlib.Core.List.{map, flat_map};
ghost use Rattle.std.specs.Prelude.{length};
ghost use Rattle.laws.specs.Lists.{All};
ghost use Rattle.definition.specs.Field.{Layout};
ghost use Rattle.definition.specs.Sheet.{span};
ghost use Rattle.item_writer.specs.Written.{RoomFor, Wrote};
ghost use Rattle.codes.specs.Number.{span_at};
ghost use Rattle.rule_writer.specs.Rows.{pairs_of, item_bits, row_bits, rows_bits};
ghost use Rattle.tables.specs.Items.{upper_of, Below, Rows};
ghost use Rattle.tables.specs.Days.{FitsSpan};

use item_writer::day::{put_months, put_weekdays, put_weeks, put_years};
use item_writer::time::put_span;

// An item of a sort: 0 years, 1 months, 2 weeks, 3 weekdays. A sort is the place of its count among the counts, so it stays a number.
fn put_item(out: &mut [u8], at: usize, sort: usize, start: u64, end: u64) -> usize
    requires below { Below (upper_of sort) (start, end) }
    requires room_for { RoomFor (length out.old) at (item_bits sort (start, end)) }
    ensures { Wrote out.old at (item_bits sort (start, end)) out.new result }
{
    match sort {
        0 => put_years(out, at, start, end),
        1 => put_months(out, at, start, end),
        2 => put_weeks(out, at, start, end),
        _ => put_weekdays(out, at, start, end),
    }
}

// Writes a row: its pairs of ends.
pub fn put_row(out: &mut [u8], at: usize, sort: usize, row: &[u16]) -> usize
    requires all { All (Below (upper_of sort)) (pairs_of row.now) }
    requires room_for { RoomFor (length out.old) at (row_bits sort (pairs_of row.now)) }
    ensures { Wrote out.old at (row_bits sort (pairs_of row.now)) out.new result }
{
    let mut next = at;
    for pair in 0..row.len() / 2 {
        let start = u64::from(row[2 * pair]);
        let end = u64::from(row[2 * pair + 1]);
        next = put_item(out, next, sort, start, end);
    }
    next
}

// Writes the rows of the four sorts, one behind the other.
pub fn put_rows(out: &mut [u8], at: usize, ends: &[u16], item_counts: &[u16]) -> usize
    requires rows { Rows ends.now item_counts.now }
    requires room_for { RoomFor (length out.old) at (rows_bits ends.now item_counts.now 0) }
    ensures { Wrote out.old at (rows_bits ends.now item_counts.now 0) out.new result }
{
    let mut next = at;
    let mut place: usize = 0;
    for sort in 0..4 {
        let behind = place + 2 * usize::from(item_counts[sort]);
        next = put_row(out, next, sort, &ends[place..behind]);
        place = behind;
    }
    next
}

// Writes spans, from their numbers.
pub fn put_spans(out: &mut [u8], at: usize, spans: &[u64]) -> usize
    requires all { All FitsSpan (map span_at spans.now) }
    requires room_for { RoomFor (length out.old) at (flat_map span.write (map span_at spans.now)) }
    ensures { Wrote out.old at (flat_map span.write (map span_at spans.now)) out.new result }
{
    let mut next = at;
    for span in spans {
        next = put_span(out, next, *span);
    }
    next
}
