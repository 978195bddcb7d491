// Why an item stops its rule.
ghost use Rattle.std.specs.Prelude.{◌≡◌, ◌<◌, ◌^◌};
ghost use Rattle.answers.specs.Refusal.{read_as};
ghost use Rattle.definition.specs.Field.{sheet_bits};
ghost use Rattle.definition.specs.Stop.{stays_today};
ghost use Rattle.item.specs.Answer.{as_parts, as_monthday, as_week_day, as_time, as_span};
ghost use Rattle.item.specs.Sort.{number_of};
ghost use Rattle.stopping.specs.Part.{reasoned, step_reason, monthday_reason, days_reason, weekday_reason, span_reason, item_reasoned};

use answers::Read;
use item::day::{Monthday, Steps, WeekDay};
use item::sort::Sort;
use item::time::{Span, Time};

// The number of what stops, and the bit after what was read. It is the number that users get as `why`, with 0 for nothing, and so no enum.
#[derive(Clone, Copy)]
pub struct Reasoned {
    pub reason: u64,
    pub at: usize,
}

// "a step other than 1", of years or of weeks: each has a number of its own.
fn of_steps(steps: Steps, number: u64) -> u64
    ensures { result ≡ step_reason number (as_parts steps) }
{
    if steps.step == 1 { 0 } else { number }
}

// "a monthday of tag 1 or 2".
fn of_monthday(monthday: Monthday) -> u64
    ensures { result ≡ monthday_reason (as_monthday monthday) }
{
    match monthday {
        Monthday::Months { .. } => 0,
        Monthday::MonthsOf { .. } | Monthday::Dated { .. } => 4,
    }
}

// "a weekday offset other than 0 or any nth bit 0".
fn of_days(offset: u64, from_start: u64, from_end: u64) -> u64
    ensures { result ≡ days_reason offset from_start from_end }
{
    if offset != 0 {
        7
    } else if item::day::every_week(offset, from_start, from_end) {
        0
    } else {
        8
    }
}

// "a holiday", whatever its offset, or weekdays that aren't meant as they stand.
fn of_weekday(weekday: WeekDay) -> u64
    ensures { result ≡ weekday_reason (as_week_day weekday) }
{
    match weekday {
        WeekDay::Fixed {
            offset,
            from_start,
            from_end,
            ..
        } => of_days(offset, from_start, from_end),
        WeekDay::Holiday { .. } => 6,
    }
}

// "A span passes if both times are fixed, start < end and end ≤ 24:00, or if start is variable and end is fixed at 24:00 exactly."
fn stays_today(start: Time, end: Time) -> bool
    ensures { result ≡ stays_today (as_time start) (as_time end) }
{
    match (start, end) {
        (Time::Fixed(first), Time::Fixed(last)) => first < last && last <= 1440,
        (Time::Variable { .. }, Time::Fixed(last)) => last == 1440,
        (_, Time::Variable { .. }) => false,
    }
}

// "a span that may reach tomorrow".
fn of_span(span: Span) -> u64
    ensures { result ≡ span_reason (as_span span) }
{
    if stays_today(span.start, span.end) {
        0
    } else {
        2
    }
}

// The number of an item of a sort, and the bit after the item.
fn number_at(sheet: &[u8], at: usize, sort: Sort) -> Read<u64>
    requires { at < 2 ^ 29 }
    ensures { reasoned (λ n. n) at (read_as (λ n. n) result) ≡ item_reasoned (number_of sort) (sheet_bits sheet.now) at }
{
    match sort {
        Sort::Years => {
            let (years, next) = item::day::year_range_at(sheet, at)?;
            Ok((of_steps(years, 3), next))
        }
        Sort::Monthdays => {
            let (monthday, next) = item::day::monthday_range_at(sheet, at)?;
            Ok((of_monthday(monthday), next))
        }
        Sort::Weeks => {
            let (weeks, next) = item::day::week_range_at(sheet, at)?;
            Ok((of_steps(weeks, 5), next))
        }
        Sort::Weekdays => {
            let (weekday, next) = item::day::week_day_range_at(sheet, at)?;
            Ok((of_weekday(weekday), next))
        }
        Sort::Spans => {
            let (span, next) = item::time::span_at(sheet, at)?;
            Ok((of_span(span), next))
        }
    }
}

// Why an item of a sort stops its rule; nothing is known of an item that isn't read, and it takes no bits.
pub fn reason_of_item(sheet: &[u8], at: usize, sort: Sort) -> Reasoned
    requires { at < 2 ^ 29 }
    ensures { result ≡ item_reasoned (number_of sort) (sheet_bits sheet.now) at }
{
    let (reason, next) = number_at(sheet, at, sort).unwrap_or((0, at));
    Reasoned { reason, at: next }
}

// The same by the sort's number, spans from 4 on.
pub fn item_reason(sheet: &[u8], at: usize, sort: usize) -> Reasoned
    requires { at < 2 ^ 29 }
    ensures { result ≡ item_reasoned sort (sheet_bits sheet.now) at }
{
    reason_of_item(sheet, at, Sort::from(sort))
}
