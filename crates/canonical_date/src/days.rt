// A rule's days: four rows of items, one behind the other, each with its row of ranges.
ghost use Rattle.std.specs.Prelude.{◌≡◌, ◌+◌, ◌-◌, ◌*◌, ◌/◌, ◌≤◌, ◌<◌, ◌^◌, length};
ghost use Rattle.definition.specs.Field.{sheet_bits};
ghost use Rattle.forms.specs.Form.{as_form};
ghost use Rattle.sheet.specs.Begin.{rule_read_at, Readable};
ghost use Rattle.canonical_date.specs.Days.{loaded, days_of, load_rows, days_loaded};
ghost use Rattle.canonical_date.specs.Found.{Found};

use crate::row::row_at;
use field::count_at;
use forms::{Form, head_width, title_width};

// How many spans a rule has and where they begin.
#[derive(Clone, Copy)]
pub struct Spans {
    pub count: u64,
    pub at: usize,
}

// How many ranges stand in a sort's row before a place.
fn ranges_before(sort: usize, place: usize) -> u16
    requires { (sort < 4) × (sort * 64 ≤ place) × (place ≤ sort * 64 + 64) }
    ensures { result ≡ (place - sort * 64) / 2 }
{
    ((place - sort * 64) / 2) as u16
}

// The four rows, the first from `start` on; their counts stand one behind the other from `counts` on, and behind them that of the spans.
// Nothing is answered where an item stops its rule.
fn rows(
    form: Form,
    sheet: &[u8],
    counts: usize,
    start: usize,
    ranges: &mut [u16],
    range_counts: &mut [u16],
) -> Option<Spans>
    requires { (counts + 80 < 2 ^ 27) × (start + 3328 < 2 ^ 27) × (256 ≤ length ranges.old) × (4 ≤ length range_counts.old) }
    ensures { loaded ranges.new range_counts.new (days_of result)
        ≡ load_rows (as_form form) 4 (sheet_bits sheet.now) counts 0 start ranges.old range_counts.old }
{
    let mut head = counts;
    let mut at = start;
    for sort in 0..4 {
        let (count, after) = count_at(form, sheet, head).ok()?;
        let row = row_at(sheet, at, sort, count, ranges)?;
        range_counts[sort] = ranges_before(sort, row.place);
        head = after;
        at = row.next;
    }
    let (count, _) = count_at(form, sheet, head).ok()?;
    Some(Spans { count, at })
}

// The days of the rule at a bit: their ranges in the table, up to the first item that stops; and its spans, where none does.
pub fn rule_ranges(
    form: Form,
    sheet: &[u8],
    at: usize,
    ranges: &mut [u16],
    range_counts: &mut [u16],
) -> Option<Spans>
    requires readable { Readable (as_form form) (sheet_bits sheet.now) at }
    requires at_bound { (at < 2 ^ 25) × (256 ≤ length ranges.old) × (4 ≤ length range_counts.old) }
    ensures { (loaded ranges.new range_counts.new (days_of result) ≡ days_loaded (as_form form) (sheet_bits sheet.now) at ranges.old range_counts.old)
        × Found (sheet_bits sheet.now) (rule_read_at (as_form form) (sheet_bits sheet.now) at) result }
{
    rows(
        form,
        sheet,
        at + title_width(form),
        at + head_width(form),
        ranges,
        range_counts,
    )
}
