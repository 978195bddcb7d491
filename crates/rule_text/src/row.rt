// A row of items as text, and the part of a rule that it makes.
ghost use Rattle.std.specs.Prelude.{◌+◌, ◌*◌, ◌<◌, ◌^◌};
ghost use Rattle.definition.specs.Field.{sheet_bits};
ghost use Rattle.item.specs.Sort.{number_of};
ghost use Rattle.text.specs.Put.{Put, Within};
ghost use Rattle.rule_text.specs.Shows.{Shows};
ghost use Rattle.rule_text.specs.Row.{others_told, items_told, opening, part_told};

use crate::shown::{Shown, show_one};
use item::sort::Sort;
use text::{put_byte, put_word};

// The items behind the first: "`,` between items".
fn show_others(
    sheet: &[u8],
    start: usize,
    sort: Sort,
    count: u64,
    out: &mut [u8],
    place: usize,
) -> Shown
    requires { (start + count * 52 < 2 ^ 29) × Within place (others_told (number_of sort) count (sheet_bits sheet.now) start).text }
    ensures { Shows (others_told (number_of sort) count (sheet_bits sheet.now) start) out.old place result out.new }
{
    let mut at = start;
    let mut to = place;
    let mut wordless = false;
    for _item in 0..count {
        let comma = put_byte(out, to, b',');
        let item = show_one(sheet, at, sort, out, comma);
        at = item.at;
        to = item.to;
        wordless |= item.wordless;
    }
    Shown { at, to, wordless }
}

// All items of a row.
pub fn show_row(
    sheet: &[u8],
    at: usize,
    sort: Sort,
    count: u64,
    out: &mut [u8],
    place: usize,
) -> Shown
    requires { (at + count * 52 < 2 ^ 29) × Within place (items_told (number_of sort) count (sheet_bits sheet.now) at).text }
    ensures { Shows (items_told (number_of sort) count (sheet_bits sheet.now) at) out.old place result out.new }
{
    if count == 0 {
        return Shown {
            at,
            to: place,
            wordless: false,
        };
    }
    let first = show_one(sheet, at, sort, out, place);
    let others = show_others(sheet, first.at, sort, count - 1, out, first.to);
    Shown {
        at: others.at,
        to: others.to,
        wordless: first.wordless | others.wordless,
    }
}

// "the weeks after `week `".
fn put_opening(out: &mut [u8], place: usize, sort: Sort) -> usize
    requires { Within place (opening (number_of sort)) }
    ensures { Put out.old place (opening (number_of sort)) result out.new }
{
    match sort {
        Sort::Weeks => put_word(out, place, b"week "),
        _ => place,
    }
}

// A part of the days, with the space behind it; nothing where it has no items.
pub fn show_days_of(
    sheet: &[u8],
    at: usize,
    sort: Sort,
    count: u64,
    out: &mut [u8],
    place: usize,
) -> Shown
    requires { (at + count * 52 < 2 ^ 29) × Within place (part_told (number_of sort) count (sheet_bits sheet.now) at).text }
    ensures { Shows (part_told (number_of sort) count (sheet_bits sheet.now) at) out.old place result out.new }
{
    if count == 0 {
        return Shown {
            at,
            to: place,
            wordless: false,
        };
    }
    let opening = put_opening(out, place, sort);
    let items = show_row(sheet, at, sort, count, out, opening);
    Shown {
        at: items.at,
        to: put_byte(out, items.to, b' '),
        wordless: items.wordless,
    }
}

// All items of a row, by the number of their sort, spans from 4 on.
pub fn show_items(
    sheet: &[u8],
    at: usize,
    sort: usize,
    count: u64,
    out: &mut [u8],
    place: usize,
) -> Shown
    requires { (at + count * 52 < 2 ^ 29) × Within place (items_told sort count (sheet_bits sheet.now) at).text }
    ensures { Shows (items_told sort count (sheet_bits sheet.now) at) out.old place result out.new }
{
    show_row(sheet, at, Sort::from(sort), count, out, place)
}

// A part of the days, by the number of its sort.
pub fn show_part(
    sheet: &[u8],
    at: usize,
    sort: usize,
    count: u64,
    out: &mut [u8],
    place: usize,
) -> Shown
    requires { (at + count * 52 < 2 ^ 29) × Within place (part_told sort count (sheet_bits sheet.now) at).text }
    ensures { Shows (part_told sort count (sheet_bits sheet.now) at) out.old place result out.new }
{
    show_days_of(sheet, at, Sort::from(sort), count, out, place)
}
