// Items of the 56 bits that stand at a place, taken as one number: whether they begin with a lawful item, or how many bits it takes. A reader that
// is told so need not read field by field; where it is not told, it must, since an item that is refused here is refused there with code and place.
// The number beside a field's width says how many of the 56 bits stand behind it.
ghost use Rattle.std.specs.Prelude.{◌≡◌, true, ◌+◌, ◌-◌, ◌/◌, ◌%◌, ◌≤◌, ◌^◌, IfSome};
ghost use Rattle.std.proofs.Math.Option.{none};
ghost use Rattle.grid.specs.Cut.{holds};
ghost use Rattle.definition.specs.Field.{lawful, ◌then◌};
ghost use Rattle.definition.specs.Rule.{months, dated, fixed_days, holiday, fixed};
ghost use Rattle.definition.specs.Sheet.{step, years_of, year_range, weeks_of, week_range, monthday_range, week_day_range, time, span_of, span};
ghost use Rattle.item.specs.Begins.{Begins, BeginsSome};

use field::{bounds, width};
use std::ops::Range;

// The range's own test, in the definition's words.
fn inside(value: u64, bounds: &Range<u64>) -> bool
    ensures { result ≡ holds value (bounds.now.start, bounds.now.end) }
{
    bounds.contains(&value)
}

// Two fields with the same bounds and a step: years or weeks.
fn lawful_steps(bits: u64, width: usize, step_width: usize, bounds: &Range<u64>) -> bool
    requires { width + (width + step_width) ≤ 56 }
    ensures { result ≡ true → Begins 56 bits (lawful width (λ v. holds v (bounds.now.start, bounds.now.end)) then lawful width (λ v. holds v (bounds.now.start, bounds.now.end)) then step step_width)
        (bits / 2 ^ (56 - width) % 2 ^ width, (bits / 2 ^ (56 - width - width) % 2 ^ width, bits / 2 ^ (56 - width - width - step_width) % 2 ^ step_width))
        (width + (width + step_width)) }
{
    let start = field::part(bits, 56 - width, width);
    let end = field::part(bits, 56 - width - width, width);
    let step = field::part(bits, 56 - width - width - step_width, step_width);
    inside(start, bounds) && inside(end, bounds) && 0 < step
}

pub fn lawful_years(bits: u64) -> bool
    ensures { result ≡ true → Begins 56 bits year_range (years_of (bits / 2 ^ 42 % 2 ^ 14, (bits / 2 ^ 28 % 2 ^ 14, bits / 2 ^ 12 % 2 ^ 16))) 44 }
{
    lawful_steps(bits, width::YEAR, width::YEAR_STEP, &bounds::YEAR)
}

pub fn lawful_weeks(bits: u64) -> bool
    ensures { result ≡ true → Begins 56 bits week_range (weeks_of (bits / 2 ^ 50 % 2 ^ 6, (bits / 2 ^ 44 % 2 ^ 6, bits / 2 ^ 36 % 2 ^ 8))) 20 }
{
    lawful_steps(bits, width::WEEK, width::WEEK_STEP, &bounds::WEEK)
}

// A monthday of tag 0, and one of tag 2, which any reference is lawful in.
pub fn lawful_months(bits: u64) -> bool
    ensures { result ≡ true → Begins 56 bits monthday_range (months (bits / 2 ^ 50 % 2 ^ 4) (bits / 2 ^ 46 % 2 ^ 4)) 10 }
{
    field::part(bits, 54, width::CHOICE) == 0
        && inside(field::part(bits, 50, width::MONTH), &bounds::MONTH)
        && inside(field::part(bits, 46, width::MONTH), &bounds::MONTH)
}

pub fn is_dated(bits: u64) -> bool
    ensures { result ≡ true → Begins 56 bits monthday_range (dated (bits / 2 ^ 22 % 2 ^ 32)) 34 }
{
    field::part(bits, 54, width::CHOICE) == 2
}

// A weekday of tag 0, and one of tag 1, which any kind and offset are lawful in.
pub fn lawful_weekdays(bits: u64) -> bool
    ensures { result ≡ true → Begins 56 bits week_day_range (fixed_days (bits / 2 ^ 52 % 2 ^ 3) (bits / 2 ^ 49 % 2 ^ 3) (bits / 2 ^ 33 % 2 ^ 16) (bits / 2 ^ 28 % 2 ^ 5) (bits / 2 ^ 23 % 2 ^ 5)) 33 }
{
    field::part(bits, 55, width::FLAG) == 0
        && inside(field::part(bits, 52, width::WEEKDAY), &bounds::WEEKDAY)
        && inside(field::part(bits, 49, width::WEEKDAY), &bounds::WEEKDAY)
}

pub fn is_holiday(bits: u64) -> bool
    ensures { result ≡ true → Begins 56 bits week_day_range (holiday (bits / 2 ^ 54 % 2 ^ 1) (bits / 2 ^ 38 % 2 ^ 16)) 18 }
{
    field::part(bits, 55, width::FLAG) != 0
}

// A span of two fixed times that does not repeat.
pub fn simple_span(bits: u64) -> bool
    ensures { result ≡ true → Begins 56 bits span (span_of (fixed (bits / 2 ^ 43 % 2 ^ 12), (fixed (bits / 2 ^ 30 % 2 ^ 12), (bits / 2 ^ 29 % 2 ^ 1, none)))) 28 }
{
    field::part(bits, 55, width::FLAG) == 0
        && field::part(bits, 42, width::FLAG) == 0
        && field::part(bits, 28, width::FLAG) == 0
        && field::part(bits, 43, width::MINUTES) <= 2880
        && field::part(bits, 30, width::MINUTES) <= 2880
}

// How many bits the time takes that 19 bits begin with; none where its minutes are above 2880.
fn time_width(bits: u64) -> Option<usize>
    ensures { IfSome result (λ w. (w ≤ 19) × BeginsSome 19 bits time w) }
{
    if field::part(bits, 18, width::FLAG) != 0 {
        Some(19)
    } else if field::part(bits, 6, width::MINUTES) <= 2880 {
        Some(13)
    } else {
        None
    }
}

// How many bits a span takes; none where one of its times is unlawful.
pub fn span_width(bits: u64) -> Option<usize>
    ensures { IfSome result (λ w. (w ≤ 52) × BeginsSome 56 bits span w) }
{
    let first = time_width(field::part(bits, 37, 19))?;
    let second = time_width(field::part(bits, 37 - first, 19))?;
    let flags = first + second + 2;
    if field::part(bits, 56 - flags, width::FLAG) == 0 {
        Some(flags)
    } else {
        Some(flags + width::REPEATS)
    }
}
