// Writes the items of days: years, months, weeks and weekdays.
ghost use Rattle.std.specs.Prelude.{◌<◌, length};
ghost use Rattle.definition.specs.Field.{Layout};
ghost use Rattle.definition.specs.Rule.{year_bounds, month_bounds, week_bounds, weekday_bounds, months};
ghost use Rattle.definition.specs.Sheet.{year_range, monthday_range, week_range, week_day_range};
ghost use Rattle.item_writer.specs.Written.{RoomFor, Wrote, years_from, weeks_from, days_from};

use crate::put::Fields;
use field::width;

// "step 1, offset 0, nth bits all 1".
const STEP: u64 = 1;

const OFFSET: u64 = 0;

// Two sets of five bits.
const EVERY_NTHS: u64 = 1023;

// "Year: start 14, end 14 (each 1900 to 9999), step 16 (from 1)."
pub fn put_years(out: &mut [u8], at: usize, start: u64, end: u64) -> usize
    requires start_lt_year_bounds { (start < year_bounds.1) × (end < year_bounds.1) }
    requires room_for { RoomFor (length out.old) at (year_range.write (years_from start end)) }
    ensures { Wrote out.old at (year_range.write (years_from start end)) out.new result }
{
    let years = Fields::new(width::YEAR, start)
        .then(width::YEAR, end)
        .then(width::YEAR_STEP, STEP);
    years.put(out, at)
}

// "Monthday: tag 2. Tag 0: start 4, end 4 (1 to 12)."
pub fn put_months(out: &mut [u8], at: usize, start: u64, end: u64) -> usize
    requires start_lt_month_bounds { (start < month_bounds.1) × (end < month_bounds.1) }
    requires room_for { RoomFor (length out.old) at (monthday_range.write (months start end)) }
    ensures { Wrote out.old at (monthday_range.write (months start end)) out.new result }
{
    let months = Fields::new(width::CHOICE, 0)
        .then(width::MONTH, start)
        .then(width::MONTH, end);
    months.put(out, at)
}

// "Week: start 6, end 6 (1 to 53), step 8 (from 1)."
pub fn put_weeks(out: &mut [u8], at: usize, start: u64, end: u64) -> usize
    requires start_lt_week_bounds { (start < week_bounds.1) × (end < week_bounds.1) }
    requires room_for { RoomFor (length out.old) at (week_range.write (weeks_from start end)) }
    ensures { Wrote out.old at (week_range.write (weeks_from start end)) out.new result }
{
    let weeks = Fields::new(width::WEEK, start)
        .then(width::WEEK, end)
        .then(width::WEEK_STEP, STEP);
    weeks.put(out, at)
}

// "Weekday: tag 1. Tag 0: start 3, end 3 (0 Monday to 6 Sunday), offset 16 two's complement, then two sets of five bits".
pub fn put_weekdays(out: &mut [u8], at: usize, start: u64, end: u64) -> usize
    requires start_lt_weekday_bounds { (start < weekday_bounds.1) × (end < weekday_bounds.1) }
    requires room_for { RoomFor (length out.old) at (week_day_range.write (days_from start end)) }
    ensures { Wrote out.old at (week_day_range.write (days_from start end)) out.new result }
{
    let days = Fields::new(width::FLAG, 0)
        .then(width::WEEKDAY, start)
        .then(width::WEEKDAY, end);
    let weekdays = days
        .then(width::OFFSET, OFFSET)
        .then(width::NTH + width::NTH, EVERY_NTHS);
    weekdays.put(out, at)
}
