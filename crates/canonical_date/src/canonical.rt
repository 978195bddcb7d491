// An item of days as ranges, or that it stops its rule. Each kind splits its own item, so that a week is never split as a year. Where eight bytes are
// left, a lawful item is read at once; else field by field.
ghost use Rattle.std.specs.Prelude.{◌≡◌, ◌<◌, ◌^◌, eqb};
ghost use Rattle.definition.specs.Field.{sheet_bits};
ghost use Rattle.definition.specs.Sheet.{years_of, year_range, monthday_range, weeks_of, week_range, week_day_range};
ghost use Rattle.answers.specs.Refusal.{read_as};
ghost use Rattle.item.specs.Answer.{as_steps, as_monthday, as_week_day};
ghost use Rattle.bounded.specs.Strict.{pair_of};
ghost use Rattle.canonical_date.specs.Says.{bounds_of, year_says, month_says, week_says, weekday_says, told, item_says, item_of};

use answers::Read;
use bounded::{Bounded, Month, OrderedWeekday, Split, StrictRange, WeekNum, Year};
use field::width;
use item::day::{Monthday, Steps, WeekDay};

// Each kind has two functions: one reads an item, the other answers its ranges and the bit after it; or nothing, where the item stops its rule.

// "a step other than 1" stops.
fn is_each(steps: Steps) -> bool
    ensures { result ≡ eqb steps.step 1 }
{
    steps.step == 1
}

fn years_read(sheet: &[u8], at: usize) -> Read<Steps>
    requires { at < 2 ^ 29 }
    ensures { read_as (as_steps years_of) result ≡ year_range.read (sheet_bits sheet.now) at }
{
    if at / 8 + 8 <= sheet.len() {
        let bits = field::wide_at(sheet, at);
        if item::wide::lawful_years(bits) {
            let years = Steps {
                start: field::part(bits, 42, width::YEAR),
                end: field::part(bits, 28, width::YEAR),
                step: field::part(bits, 12, width::YEAR_STEP),
            };
            return Ok((years, at + 44));
        }
    }
    item::day::year_range_at(sheet, at)
}

fn years_at(sheet: &[u8], at: usize) -> Option<(Split, usize)>
    requires { at < 2 ^ 29 }
    ensures { item_of result ≡ told year_says (year_range.read (sheet_bits sheet.now) at) }
{
    let (years, next) = years_read(sheet, at).ok()?;
    if !is_each(years) {
        return None;
    }
    let first = Year(years.start as u16);
    let last = Year(years.end as u16);
    Some((Year::split_inverted_range(first, last), next))
}

fn months_read(sheet: &[u8], at: usize) -> Read<Monthday>
    requires { at < 2 ^ 29 }
    ensures { read_as as_monthday result ≡ monthday_range.read (sheet_bits sheet.now) at }
{
    if at / 8 + 8 <= sheet.len() {
        let bits = field::wide_at(sheet, at);
        if item::wide::lawful_months(bits) {
            let months = Monthday::Months {
                start: field::part(bits, 50, width::MONTH),
                end: field::part(bits, 46, width::MONTH),
            };
            return Ok((months, at + 10));
        }
    }
    item::day::monthday_range_at(sheet, at)
}

// "a monthday of tag 1 or 2" stops.
fn months_at(sheet: &[u8], at: usize) -> Option<(Split, usize)>
    requires { at < 2 ^ 29 }
    ensures { item_of result ≡ told month_says (monthday_range.read (sheet_bits sheet.now) at) }
{
    let (monthday, next) = months_read(sheet, at).ok()?;
    let Monthday::Months { start, end } = monthday else {
        return None;
    };
    let split = Month::split_inverted_range(Month(start as u8), Month(end as u8));
    Some((split, next))
}

fn weeks_read(sheet: &[u8], at: usize) -> Read<Steps>
    requires { at < 2 ^ 29 }
    ensures { read_as (as_steps weeks_of) result ≡ week_range.read (sheet_bits sheet.now) at }
{
    if at / 8 + 8 <= sheet.len() {
        let bits = field::wide_at(sheet, at);
        if item::wide::lawful_weeks(bits) {
            let weeks = Steps {
                start: field::part(bits, 50, width::WEEK),
                end: field::part(bits, 44, width::WEEK),
                step: field::part(bits, 36, width::WEEK_STEP),
            };
            return Ok((weeks, at + 20));
        }
    }
    item::day::week_range_at(sheet, at)
}

fn weeks_at(sheet: &[u8], at: usize) -> Option<(Split, usize)>
    requires { at < 2 ^ 29 }
    ensures { item_of result ≡ told week_says (week_range.read (sheet_bits sheet.now) at) }
{
    let (weeks, next) = weeks_read(sheet, at).ok()?;
    if !is_each(weeks) {
        return None;
    }
    let first = WeekNum(weeks.start as u8);
    let last = WeekNum(weeks.end as u8);
    Some((WeekNum::split_inverted_range(first, last), next))
}

fn weekdays_read(sheet: &[u8], at: usize) -> Read<WeekDay>
    requires { at < 2 ^ 29 }
    ensures { read_as as_week_day result ≡ week_day_range.read (sheet_bits sheet.now) at }
{
    if at / 8 + 8 <= sheet.len() {
        let bits = field::wide_at(sheet, at);
        if item::wide::lawful_weekdays(bits) {
            let weekdays = WeekDay::Fixed {
                start: field::part(bits, 52, width::WEEKDAY),
                end: field::part(bits, 49, width::WEEKDAY),
                offset: field::part(bits, 33, width::OFFSET),
                from_start: field::part(bits, 28, width::NTH),
                from_end: field::part(bits, 23, width::NTH),
            };
            return Ok((weekdays, at + 33));
        }
    }
    item::day::week_day_range_at(sheet, at)
}

// "a holiday; a weekday offset other than 0 or any nth bit 0" stops.
fn weekdays_at(sheet: &[u8], at: usize) -> Option<(Split, usize)>
    requires { at < 2 ^ 29 }
    ensures { item_of result ≡ told weekday_says (week_day_range.read (sheet_bits sheet.now) at) }
{
    let (weekday, next) = weekdays_read(sheet, at).ok()?;
    match weekday {
        WeekDay::Fixed {
            start,
            end,
            offset,
            from_start,
            from_end,
        } if item::day::every_week(offset, from_start, from_end) => {
            let first = OrderedWeekday(start as u8);
            let last = OrderedWeekday(end as u8);
            Some((OrderedWeekday::split_inverted_range(first, last), next))
        }
        _ => None,
    }
}

// An item of a sort: 0 years, 1 monthdays, 2 weeks, 3 weekdays. A sort is a number and no enum here, since it is the row of the table of ranges too.
pub fn item_at(sheet: &[u8], at: usize, sort: usize) -> Option<(Split, usize)>
    requires { at < 2 ^ 29 }
    ensures { item_of result ≡ item_says sort (sheet_bits sheet.now) at }
{
    match sort {
        0 => years_at(sheet, at),
        1 => months_at(sheet, at),
        2 => weeks_at(sheet, at),
        _ => weekdays_at(sheet, at),
    }
}

// A whole dimension, by its sort.
pub fn bounds(sort: usize) -> StrictRange
    ensures { pair_of result ≡ bounds_of sort }
{
    match sort {
        0 => Year::bounds(),
        1 => Month::bounds(),
        2 => WeekNum::bounds(),
        _ => OrderedWeekday::bounds(),
    }
}
