// Gregorian dates from 1900 to 9999: leap years, month lengths, the weekday of 1 January, day of the year, weekday and ISO week. The definition
// is definition's specs/Date. Numbers that are no date get an answer too: that there is none.
#![tactic(auto)]

mod new_years;

ghost use Rattle.std.specs.Prelude.{◌≡◌, true, ◌-◌, ◌<◌, ◌≤◌, get_or};
ghost use Rattle.definition.specs.Date.{is_leap, month_lengths, is_date, day_of_year, new_year, year_length, weekday_at, thursday_of, week_at};
ghost use Rattle.calendar.specs.Dated.{point_in, point_at};
ghost use Rattle.calendar.specs.Days.{InYear};

use new_years::NEW_YEARS;

// A point in numbers: the weekday, Monday 0, the ISO week, the month and the calendar year.
#[derive(Clone, Copy, PartialEq, Eq)]
pub struct Point {
    pub weekday: u8,
    pub week: u8,
    pub month: u8,
    pub year: u16,
}

// The lengths of January to December: common years, leap years.
const MONTH_LENGTHS: [[u8; 12]; 2] = [
    [31, 28, 31, 30, 31, 30, 31, 31, 30, 31, 30, 31],
    [31, 29, 31, 30, 31, 30, 31, 31, 30, 31, 30, 31],
];

// Every fourth year is a leap year, but of the full centuries only every fourth.
pub fn is_leap(year: u64) -> bool
    ensures { result ≡ is_leap year }
{
    year % 4 == 0 && (year % 100 != 0 || year % 400 == 0)
}

// A month's length. The index counts months from 0.
fn month_length(leap: bool, index: usize) -> u8
    requires { index < 12 }
    ensures { result ≡ get_or (month_lengths leap) index 0 }
{
    MONTH_LENGTHS[usize::from(leap)][index]
}

// Is there such a date, from 1900 to 9999?
pub fn is_date(year: u64, month: u64, day: u64) -> bool
    ensures { result ≡ is_date year month day }
{
    1900 <= year
        && year <= 9999
        && 1 <= month
        && month <= 12
        && 1 <= day
        && day <= u64::from(month_length(is_leap(year), (month - 1) as usize))
}

// A date's day of the year, 1 January the first.
fn day_of_year(year: u64, month: u64, day: u64) -> u16
    requires { is_date year month day ≡ true }
    ensures { result ≡ day_of_year year month day }
{
    let leap = is_leap(year);
    let passed = (month - 1) as usize;
    let mut days = day as u16;
    for index in 0..passed {
        days += u16::from(month_length(leap, index));
    }
    days
}

// The weekday of a year's 1 January, Monday 0.
fn new_year(year: u64) -> u8
    requires { 1900 ≤ year }
    ensures { result ≡ new_year (year - 1900) }
{
    NEW_YEARS[(year % 400) as usize]
}

// The weekday of a day of a year, Monday 0.
fn weekday_of(year: u64, day: u16) -> u8
    requires { (1900 ≤ year) × InYear (year, day) }
    ensures { result ≡ weekday_at (year, day) }
{
    ((u16::from(new_year(year)) + (day - 1)) % 7) as u8
}

fn year_length(year: u64) -> u16
    ensures { result ≡ year_length year }
{
    if is_leap(year) { 366 } else { 365 }
}

// The Thursday of the week that a day of a year is in, as a day of the Thursday's own year: that one, the year before it or the next.
fn thursday_of(year: u64, day: u16, weekday: u8) -> u16
    requires { (1900 ≤ year) × InYear (year, day) × (weekday ≡ weekday_at (year, day)) }
    ensures { result ≡ (thursday_of (year, day)).1 }
{
    let days = day + 3;
    let passed = u16::from(weekday);
    if days <= passed {
        return year_length(year - 1) + days - passed;
    }
    let thursday = days - passed;
    let length = year_length(year);
    if thursday <= length {
        thursday
    } else {
        thursday - length
    }
}

// The ISO week of a day of a year: the number of the week's Thursday among the Thursdays of that Thursday's year. The week's rule stands
// here, in `thursday_of` and in the definition's `week_at` alone.
fn week_of(year: u64, day: u16, weekday: u8) -> u8
    requires { (1900 ≤ year) × InYear (year, day) × (weekday ≡ weekday_at (year, day)) }
    ensures { result ≡ week_at (year, day) }
{
    ((thursday_of(year, day, weekday) - 1) / 7 + 1) as u8
}

// The point of a date, or that there is no such date.
pub fn point_of(year: u64, month: u64, day: u64) -> Option<Point>
    ensures { point_in result ≡ point_at year month day }
{
    if !is_date(year, month, day) {
        return None;
    }
    let passed = day_of_year(year, month, day);
    let weekday = weekday_of(year, passed);
    Some(Point {
        weekday,
        week: week_of(year, passed, weekday),
        month: month as u8,
        year: year as u16,
    })
}
