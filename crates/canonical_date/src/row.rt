// A row of items as ranges in the table: one function for all four sorts.
ghost use Rattle.std.specs.Prelude.{◌≡◌, [], ◌∷◌, ◌+◌, ◌*◌, ◌≤◌, ◌<◌, ◌^◌, length};
ghost use Rattle.std.proofs.lemmas.List.Edits.{sets};
ghost use Rattle.laws.specs.Lists.{All};
ghost use Rattle.definition.specs.Field.{sheet_bits};
ghost use Rattle.bounded.specs.Strict.{pair_of, list_of};
ghost use Rattle.canonical_date.specs.Row.{flat, Narrow, items_ranges, items_end, row_ranges, answered, row_of};

use crate::canonical::{bounds, item_at};
use bounded::{Split, StrictRange};

// The place after a row's ranges and the bit after its items.
#[derive(Clone, Copy)]
pub struct Row {
    pub place: usize,
    pub next: usize,
}

fn put_range(ranges: &mut [u16], place: usize, range: StrictRange)
    requires { (place + 1 < length ranges.old) × Narrow (pair_of range) }
    ensures { ranges.new ≡ sets ranges.old place (flat (pair_of range ∷ [])) }
{
    ranges[place] = range.start as u16;
    ranges[place + 1] = range.end as u16;
}

// One range or two; answers the place after them.
fn put_split(ranges: &mut [u16], place: usize, split: Split) -> usize
    requires { (place + 3 < length ranges.old) × All Narrow (list_of split) }
    ensures { (result ≡ place + length (flat (list_of split))) × (ranges.new ≡ sets ranges.old place (flat (list_of split))) }
{
    match split {
        Split::One(range) => {
            put_range(ranges, place, range);
            place + 2
        }
        Split::Two(low, high) => {
            put_range(ranges, place, low);
            put_range(ranges, place + 2, high);
            place + 4
        }
    }
}

// Some items of a sort, one behind the other, up to the first that stops.
fn items(
    sheet: &[u8],
    start: usize,
    sort: usize,
    count: u64,
    ranges: &mut [u16],
    first: usize,
) -> Option<Row>
    requires { (start + count * 52 < 2 ^ 29) × (first + count * 4 ≤ length ranges.old) }
    ensures { (row_of result ≡ answered (first + length (flat (items_ranges sort count (sheet_bits sheet.now) start))) (items_end sort count (sheet_bits sheet.now) start))
        × (ranges.new ≡ sets ranges.old first (flat (items_ranges sort count (sheet_bits sheet.now) start))) }
{
    let mut row = Row {
        place: first,
        next: start,
    };
    for i in 0..count {
        let (split, next) = item_at(sheet, row.next, sort)?;
        row = Row {
            place: put_split(ranges, row.place, split),
            next,
        };
    }
    Some(row)
}

// A sort's row, at its place in the table. No items: the whole dimension.
pub fn row_at(sheet: &[u8], at: usize, sort: usize, count: u64, ranges: &mut [u16]) -> Option<Row>
    requires { (at < 2 ^ 28) × (sort < 4) × (count ≤ 16) × (256 ≤ length ranges.old) }
    ensures { (row_of result ≡ answered (sort * 64 + length (flat (row_ranges sort count (sheet_bits sheet.now) at))) (items_end sort count (sheet_bits sheet.now) at))
        × (ranges.new ≡ sets ranges.old (sort * 64) (flat (row_ranges sort count (sheet_bits sheet.now) at))) }
{
    let place = sort * 64;
    if count == 0 {
        put_range(ranges, place, bounds(sort));
        return Some(Row {
            place: place + 2,
            next: at,
        });
    }
    items(sheet, at, sort, count, ranges, place)
}
