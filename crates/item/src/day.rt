// The items of days, read at a bit: each answers its values with the bit after it, or a refusal.
// Positions stay below `2 ^ 31`, so that no sum of a position and a width passes a machine word.
ghost use Rattle.std.specs.Prelude.{◌≡◌, ◌&&◌, ◌≤◌, ◌<◌, ◌^◌, eqb};
ghost use Rattle.grid.specs.Cut.{holds};
ghost use Rattle.definition.specs.Field.{Layout, sheet_bits, lawful, ◌then◌};
ghost use Rattle.definition.specs.Sheet.{step, years_of, weeks_of, year_range, week_range, months_layout, months_of_layout, dated_layout, monthday_range, fixed_days_layout, holiday_layout, week_day_range};
ghost use Rattle.definition.specs.Stop.{every_nth};
ghost use Rattle.answers.specs.Refusal.{read_as};
ghost use Rattle.item.specs.Answer.{as_parts, as_steps, as_monthday, as_week_day};

use answers::Read;
use field::{bounds, width};
use std::ops::Range;

// Years or weeks: every so many from a start to an end.
#[derive(Clone, Copy, Debug, PartialEq, Eq)]
pub struct Steps {
    pub start: u64,
    pub end: u64,
    pub step: u64,
}

// Months of any year, months of one year, or a caller's reference for a dated range.
#[derive(Clone, Copy, Debug, PartialEq, Eq)]
pub enum Monthday {
    Months { start: u64, end: u64 },
    MonthsOf { start: u64, end: u64, year: u64 },
    Dated { reference: u64 },
}

// Weekdays with offset and the two nth sets, or a holiday with its offset.
#[derive(Clone, Copy, Debug, PartialEq, Eq)]
pub enum WeekDay {
    Fixed {
        start: u64,
        end: u64,
        offset: u64,
        from_start: u64,
        from_end: u64,
    },
    Holiday {
        kind: u64,
        offset: u64,
    },
}

// Two fields with the same bounds and a step: years or weeks.
fn steps_at(
    sheet: &[u8],
    at: usize,
    width: usize,
    step_width: usize,
    bounds: &Range<u64>,
) -> Read<Steps>
    requires { (width ≤ 32) × (step_width ≤ 32) × (at < 2 ^ 31) }
    ensures { read_as as_parts result
        ≡ (lawful width (λ v. holds v (bounds.now.start, bounds.now.end)) then lawful width (λ v. holds v (bounds.now.start, bounds.now.end))
        then step step_width).read (sheet_bits sheet.now) at }
{
    let (start, after_start) = field::within_at(sheet, at, width, bounds)?;
    let (end, after_end) = field::within_at(sheet, after_start, width, bounds)?;
    let (step, next) = field::step_at(sheet, after_end, step_width)?;
    Ok((Steps { start, end, step }, next))
}

// "Year: start 14, end 14 (each 1900 to 9999), step 16 (from 1)."
pub fn year_range_at(sheet: &[u8], at: usize) -> Read<Steps>
    requires { at < 2 ^ 31 }
    ensures { read_as (as_steps years_of) result ≡ year_range.read (sheet_bits sheet.now) at }
{
    steps_at(sheet, at, width::YEAR, width::YEAR_STEP, &bounds::YEAR)
}

// "Week: start 6, end 6 (1 to 53), step 8 (from 1)."
pub fn week_range_at(sheet: &[u8], at: usize) -> Read<Steps>
    requires { at < 2 ^ 31 }
    ensures { read_as (as_steps weeks_of) result ≡ week_range.read (sheet_bits sheet.now) at }
{
    steps_at(sheet, at, width::WEEK, width::WEEK_STEP, &bounds::WEEK)
}

// Tag 0: "start 4, end 4 (1 to 12)".
pub fn months_at(sheet: &[u8], at: usize) -> Read<Monthday>
    requires { at < 2 ^ 31 }
    ensures { read_as as_monthday result ≡ months_layout.read (sheet_bits sheet.now) at }
{
    let (start, after_start) = field::month_at(sheet, at)?;
    let (end, next) = field::month_at(sheet, after_start)?;
    Ok((Monthday::Months { start, end }, next))
}

// Tag 1: "the same, then year 14 (1900 to 9999)".
pub fn months_of_at(sheet: &[u8], at: usize) -> Read<Monthday>
    requires { at < 2 ^ 31 }
    ensures { read_as as_monthday result ≡ months_of_layout.read (sheet_bits sheet.now) at }
{
    let (start, after_start) = field::month_at(sheet, at)?;
    let (end, after_end) = field::month_at(sheet, after_start)?;
    let (year, next) = field::year_at(sheet, after_end)?;
    Ok((Monthday::MonthsOf { start, end, year }, next))
}

// Tag 2: "a caller's reference of 32 for a dated range".
pub fn dated_at(sheet: &[u8], at: usize) -> Read<Monthday>
    requires { at < 2 ^ 31 }
    ensures { read_as as_monthday result ≡ dated_layout.read (sheet_bits sheet.now) at }
{
    let (reference, next) = field::take_at(sheet, at, width::REFERENCE)?;
    Ok((Monthday::Dated { reference }, next))
}

// "Monthday: tag 2."
pub fn monthday_range_at(sheet: &[u8], at: usize) -> Read<Monthday>
    requires { at < 2 ^ 30 }
    ensures { read_as as_monthday result ≡ monthday_range.read (sheet_bits sheet.now) at }
{
    let (tag, body) = field::choice_at(sheet, at)?;
    match tag {
        0 => months_at(sheet, body),
        1 => months_of_at(sheet, body),
        _ => dated_at(sheet, body),
    }
}

// Tag 0: "start 3, end 3 (0 Monday to 6 Sunday), offset 16 two's complement, then two sets of five bits".
pub fn fixed_days_at(sheet: &[u8], at: usize) -> Read<WeekDay>
    requires { at < 2 ^ 31 }
    ensures { read_as as_week_day result ≡ fixed_days_layout.read (sheet_bits sheet.now) at }
{
    let (start, after_start) = field::weekday_at(sheet, at)?;
    let (end, after_end) = field::weekday_at(sheet, after_start)?;
    let (offset, after_offset) = field::take_at(sheet, after_end, width::OFFSET)?;
    let (from_start, after_from_start) = field::take_at(sheet, after_offset, width::NTH)?;
    let (from_end, next) = field::take_at(sheet, after_from_start, width::NTH)?;
    Ok((
        WeekDay::Fixed {
            start,
            end,
            offset,
            from_start,
            from_end,
        },
        next,
    ))
}

// Tag 1: "holiday kind 1, offset 16".
pub fn holiday_at(sheet: &[u8], at: usize) -> Read<WeekDay>
    requires { at < 2 ^ 31 }
    ensures { read_as as_week_day result ≡ holiday_layout.read (sheet_bits sheet.now) at }
{
    let (kind, after_kind) = field::take_at(sheet, at, width::FLAG)?;
    let (offset, next) = field::take_at(sheet, after_kind, width::OFFSET)?;
    Ok((WeekDay::Holiday { kind, offset }, next))
}

// "Weekday: tag 1."
pub fn week_day_range_at(sheet: &[u8], at: usize) -> Read<WeekDay>
    requires { at < 2 ^ 30 }
    ensures { read_as as_week_day result ≡ week_day_range.read (sheet_bits sheet.now) at }
{
    let (tag, body) = field::take_at(sheet, at, width::FLAG)?;
    match tag {
        0 => fixed_days_at(sheet, body),
        _ => holiday_at(sheet, body),
    }
}

// Whether weekdays are meant as they stand: not moved by days, and every one of a month.
pub fn every_week(offset: u64, from_start: u64, from_end: u64) -> bool
    ensures { result ≡ eqb offset 0 && (eqb from_start every_nth && eqb from_end every_nth) }
{
    offset == 0 && from_start == 31 && from_end == 31
}
