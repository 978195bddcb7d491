// Where an item, and a row of items, ends; or the refusal met on the way. Where eight bytes are left and an item is lawful, its bits are read at once;
// else field by field, for the refusal's reason and place.
ghost use Rattle.std.specs.Prelude.{◌≡◌, ◌≤◌, ◌<◌, ◌^◌};
ghost use Rattle.definition.specs.Field.{Layout, sheet_bits};
ghost use Rattle.definition.specs.Sheet.{year_range, monthday_range, week_range, week_day_range, span};
ghost use Rattle.item.specs.Sort.{number_of};
ghost use Rattle.sheet.specs.End.{ends, as_step, item_ends, skip_all};

use answers::Refusal;
use item::sort::Sort;

fn years_end(sheet: &[u8], at: usize) -> Result<usize, Refusal>
    requires { at < 2 ^ 29 }
    ensures { as_step result ≡ ends (year_range.read (sheet_bits sheet.now) at) }
{
    if at / 8 + 8 <= sheet.len() && item::wide::lawful_years(field::wide_at(sheet, at)) {
        return Ok(at + 44);
    }
    let (_, next) = item::day::year_range_at(sheet, at)?;
    Ok(next)
}

fn monthdays_end(sheet: &[u8], at: usize) -> Result<usize, Refusal>
    requires { at < 2 ^ 29 }
    ensures { as_step result ≡ ends (monthday_range.read (sheet_bits sheet.now) at) }
{
    if at / 8 + 8 <= sheet.len() {
        let bits = field::wide_at(sheet, at);
        if item::wide::lawful_months(bits) {
            return Ok(at + 10);
        }
        if item::wide::is_dated(bits) {
            return Ok(at + 34);
        }
    }
    let (_, next) = item::day::monthday_range_at(sheet, at)?;
    Ok(next)
}

fn weeks_end(sheet: &[u8], at: usize) -> Result<usize, Refusal>
    requires { at < 2 ^ 29 }
    ensures { as_step result ≡ ends (week_range.read (sheet_bits sheet.now) at) }
{
    if at / 8 + 8 <= sheet.len() && item::wide::lawful_weeks(field::wide_at(sheet, at)) {
        return Ok(at + 20);
    }
    let (_, next) = item::day::week_range_at(sheet, at)?;
    Ok(next)
}

fn weekdays_end(sheet: &[u8], at: usize) -> Result<usize, Refusal>
    requires { at < 2 ^ 29 }
    ensures { as_step result ≡ ends (week_day_range.read (sheet_bits sheet.now) at) }
{
    if at / 8 + 8 <= sheet.len() {
        let bits = field::wide_at(sheet, at);
        if item::wide::lawful_weekdays(bits) {
            return Ok(at + 33);
        }
        if item::wide::is_holiday(bits) {
            return Ok(at + 18);
        }
    }
    let (_, next) = item::day::week_day_range_at(sheet, at)?;
    Ok(next)
}

fn spans_end(sheet: &[u8], at: usize) -> Result<usize, Refusal>
    requires { at < 2 ^ 29 }
    ensures { as_step result ≡ ends (span.read (sheet_bits sheet.now) at) }
{
    if at / 8 + 8 <= sheet.len()
        && let Some(width) = item::wide::span_width(field::wide_at(sheet, at))
    {
        return Ok(at + width);
    }
    let (_, next) = item::time::span_at(sheet, at)?;
    Ok(next)
}

fn item_end(sheet: &[u8], at: usize, sort: Sort) -> Result<usize, Refusal>
    requires { at < 2 ^ 29 }
    ensures { as_step result ≡ item_ends (number_of sort) (sheet_bits sheet.now) at }
{
    match sort {
        Sort::Years => years_end(sheet, at),
        Sort::Monthdays => monthdays_end(sheet, at),
        Sort::Weeks => weeks_end(sheet, at),
        Sort::Weekdays => weekdays_end(sheet, at),
        Sort::Spans => spans_end(sheet, at),
    }
}

// Some items of a sort, one behind the other.
pub fn row_end(sheet: &[u8], start: usize, sort: Sort, count: u64) -> Result<usize, Refusal>
    requires { (start < 2 ^ 28) × (count ≤ 1024) }
    ensures { as_step result ≡ skip_all (item_ends (number_of sort)) count (sheet_bits sheet.now) start }
{
    let mut at = start;
    for i in 0..count {
        at = item_end(sheet, at, sort)?;
    }
    Ok(at)
}

// The same by the sort's number, spans from 4 on.
pub fn items_end(sheet: &[u8], start: usize, sort: u8, count: u64) -> Result<usize, Refusal>
    requires { (start < 2 ^ 28) × (count ≤ 1024) }
    ensures { as_step result ≡ skip_all (item_ends sort) count (sheet_bits sheet.now) start }
{
    row_end(sheet, start, Sort::from(usize::from(sort)), count)
}
