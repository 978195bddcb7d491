// One item, read at a bit and put as text. The answer says where an item has no words; nothing is written for it.
ghost use Rattle.std.specs.Prelude.{◌≡◌, ◌&&◌, ◌<◌, ◌^◌};
ghost use Rattle.definition.specs.Field.{sheet_bits};
ghost use Rattle.definition.specs.Day.{minute_of, no_repeats};
ghost use Rattle.definition.specs.Line.{is_fixed};
ghost use Rattle.item.specs.Answer.{as_time, as_repeats};
ghost use Rattle.item.specs.Sort.{number_of};
ghost use Rattle.text.specs.Put.{Within};
ghost use Rattle.rule_text.specs.Tale.{year_told, months_told, week_told, weekdays_told, span_told, item_told};
ghost use Rattle.rule_text.specs.Shows.{silent, Shows};

use item::day::{Monthday, WeekDay};
use item::sort::Sort;
use item::time::{Span, Time};
use item_text::day::{DaySort, put_days};
use item_text::time::put_span;

// The bit after what was read, the place after its text, and whether some of it has no words.
#[derive(Clone, Copy)]
pub struct Shown {
    pub at: usize,
    pub to: usize,
    pub wordless: bool,
}

impl Shown {
    // The answer for what has no words: nothing is written.
    fn silent(at: usize, to: usize) -> Shown
        ensures { result ≡ silent at to }
    {
        Shown {
            at,
            to,
            wordless: true,
        }
    }
}

fn show_year(sheet: &[u8], at: usize, out: &mut [u8], place: usize) -> Shown
    requires { (at < 2 ^ 29) × Within place (year_told (sheet_bits sheet.now) at).text }
    ensures { Shows (year_told (sheet_bits sheet.now) at) out.old place result out.new }
{
    let Ok((years, next)) = item::day::year_range_at(sheet, at) else {
        return Shown::silent(at, place);
    };
    Shown {
        at: next,
        to: put_days(
            out,
            place,
            DaySort::Years,
            years.start,
            years.end,
            years.step,
        ),
        wordless: false,
    }
}

// "a dated month range, a monthday reference" have no words.
fn show_months(sheet: &[u8], at: usize, out: &mut [u8], place: usize) -> Shown
    requires { (at < 2 ^ 29) × Within place (months_told (sheet_bits sheet.now) at).text }
    ensures { Shows (months_told (sheet_bits sheet.now) at) out.old place result out.new }
{
    let Ok((monthday, next)) = item::day::monthday_range_at(sheet, at) else {
        return Shown::silent(at, place);
    };
    let Monthday::Months { start, end } = monthday else {
        return Shown::silent(next, place);
    };
    Shown {
        at: next,
        to: put_days(out, place, DaySort::Months, start, end, 1),
        wordless: false,
    }
}

fn show_week(sheet: &[u8], at: usize, out: &mut [u8], place: usize) -> Shown
    requires { (at < 2 ^ 29) × Within place (week_told (sheet_bits sheet.now) at).text }
    ensures { Shows (week_told (sheet_bits sheet.now) at) out.old place result out.new }
{
    let Ok((weeks, next)) = item::day::week_range_at(sheet, at) else {
        return Shown::silent(at, place);
    };
    Shown {
        at: next,
        to: put_days(
            out,
            place,
            DaySort::Weeks,
            weeks.start,
            weeks.end,
            weeks.step,
        ),
        wordless: false,
    }
}

// "a holiday, a weekday offset or unset nth bit" have no words.
fn show_weekdays(sheet: &[u8], at: usize, out: &mut [u8], place: usize) -> Shown
    requires { (at < 2 ^ 29) × Within place (weekdays_told (sheet_bits sheet.now) at).text }
    ensures { Shows (weekdays_told (sheet_bits sheet.now) at) out.old place result out.new }
{
    let Ok((weekday, next)) = item::day::week_day_range_at(sheet, at) else {
        return Shown::silent(at, place);
    };
    match weekday {
        WeekDay::Fixed {
            start,
            end,
            offset,
            from_start,
            from_end,
        } if item::day::every_week(offset, from_start, from_end) => Shown {
            at: next,
            to: put_days(out, place, DaySort::Weekdays, start, end, 1),
            wordless: false,
        },
        _ => Shown::silent(next, place),
    }
}

// The minutes of a fixed time.
fn minutes(time: Time) -> u64
    ensures { result ≡ minute_of (as_time time) }
{
    match time {
        Time::Fixed(minutes) => minutes,
        Time::Variable { .. } => 0,
    }
}

fn fixed(time: Time) -> bool
    ensures { result ≡ is_fixed (as_time time) }
{
    matches!(time, Time::Fixed(_))
}

// Whether a span has fixed times and no repeats.
fn plain(span: Span) -> bool
    ensures { result ≡ is_fixed (as_time span.start) && (is_fixed (as_time span.end) && no_repeats (as_repeats span.repeats)) }
{
    fixed(span.start) && fixed(span.end) && span.repeats.is_none()
}

// "a variable time, repeats" have no words.
fn show_span(sheet: &[u8], at: usize, out: &mut [u8], place: usize) -> Shown
    requires { (at < 2 ^ 29) × Within place (span_told (sheet_bits sheet.now) at).text }
    ensures { Shows (span_told (sheet_bits sheet.now) at) out.old place result out.new }
{
    let Ok((span, next)) = item::time::span_at(sheet, at) else {
        return Shown::silent(at, place);
    };
    if plain(span) {
        Shown {
            at: next,
            to: put_span(
                out,
                place,
                minutes(span.start),
                minutes(span.end),
                span.open_end,
            ),
            wordless: false,
        }
    } else {
        Shown::silent(next, place)
    }
}

// An item of a sort.
pub fn show_one(sheet: &[u8], at: usize, sort: Sort, out: &mut [u8], place: usize) -> Shown
    requires { (at < 2 ^ 29) × Within place (item_told (number_of sort) (sheet_bits sheet.now) at).text }
    ensures { Shows (item_told (number_of sort) (sheet_bits sheet.now) at) out.old place result out.new }
{
    match sort {
        Sort::Years => show_year(sheet, at, out, place),
        Sort::Monthdays => show_months(sheet, at, out, place),
        Sort::Weeks => show_week(sheet, at, out, place),
        Sort::Weekdays => show_weekdays(sheet, at, out, place),
        Sort::Spans => show_span(sheet, at, out, place),
    }
}

// The same by the sort's number, spans from 4 on.
pub fn show_item(sheet: &[u8], at: usize, sort: usize, out: &mut [u8], place: usize) -> Shown
    requires { (at < 2 ^ 29) × Within place (item_told sort (sheet_bits sheet.now) at).text }
    ensures { Shows (item_told sort (sheet_bits sheet.now) at) out.old place result out.new }
{
    show_one(sheet, at, Sort::from(sort), out, place)
}
