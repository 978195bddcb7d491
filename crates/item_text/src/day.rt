// An item of days as text, by its sort.
ghost use Rattle.std.specs.Prelude.{◌≡◌, true};
ghost use Rattle.definition.specs.Text.{Text};
ghost use Rattle.definition.specs.Line.{single};
ghost use Rattle.text.specs.Put.{Put, Within};
ghost use Rattle.item_text.specs.Day.{month_name, weekday_name, sort_named, end_text, item_text, behind};

use text::{put_byte, put_decimal, put_four, put_name, put_two};

// The four sorts of day items.
#[derive(Clone, Copy, Debug, PartialEq, Eq)]
pub enum DaySort {
    Years,
    Months,
    Weeks,
    Weekdays,
}

// Each number names a sort: 0 to 2 the first three, every other one weekdays.
impl From<usize> for DaySort {
    ghost from_gives = { λ number sort. sort ≡ sort_named number };

    fn from(number: usize) -> DaySort {
        match number {
            0 => DaySort::Years,
            1 => DaySort::Months,
            2 => DaySort::Weeks,
            _ => DaySort::Weekdays,
        }
    }
}

fn put_month(out: &mut [u8], place: usize, month: u64) -> usize
    requires { (month_name.fits month ≡ true) × Within place (month_name.write month) }
    ensures { Put out.old place (month_name.write month) result out.new }
{
    put_name(
        out,
        place,
        b"JanFebMarAprMayJunJulAugSepOctNovDec",
        3,
        month as usize - 1,
    )
}

fn put_weekday(out: &mut [u8], place: usize, weekday: u64) -> usize
    requires { (weekday_name.fits weekday ≡ true) × Within place (weekday_name.write weekday) }
    ensures { Put out.old place (weekday_name.write weekday) result out.new }
{
    put_name(out, place, b"MoTuWeThFrSaSu", 2, weekday as usize)
}

// One end of an item.
fn put_end(out: &mut [u8], place: usize, sort: DaySort, value: u64) -> usize
    requires { ((end_text sort).fits value ≡ true) × Within place ((end_text sort).write value) }
    ensures { Put out.old place ((end_text sort).write value) result out.new }
{
    match sort {
        DaySort::Years => put_four(out, place, value),
        DaySort::Months => put_month(out, place, value),
        DaySort::Weeks => put_two(out, place, value),
        DaySort::Weekdays => put_weekday(out, place, value),
    }
}

// "any other step follows both ends after `/`": what stands behind the first end.
fn put_behind(out: &mut [u8], place: usize, sort: DaySort, last: u64, step: u64) -> usize
    requires { ((end_text sort).fits last ≡ true) × Within place (behind sort last step) }
    ensures { Put out.old place (behind sort last step) result out.new }
{
    let dash = put_byte(out, place, b'-');
    let end = put_end(out, dash, sort, last);
    if step == 1 {
        return end;
    }
    let slash = put_byte(out, end, b'/');
    put_decimal(out, slash, step)
}

// "Equal ends of a day item with step 1 are written once".
fn once(first: u64, last: u64, step: u64) -> bool
    ensures { result ≡ single (first, (last, step)) }
{
    first == last && step == 1
}

// An item of days: its first end, and what stands behind it unless it is alone.
pub fn put_days(
    out: &mut [u8],
    place: usize,
    sort: DaySort,
    first: u64,
    last: u64,
    step: u64,
) -> usize
    requires { ((end_text sort).fits first ≡ true) × ((end_text sort).fits last ≡ true) × Within place ((item_text sort).write (first, (last, step))) }
    ensures { Put out.old place ((item_text sort).write (first, (last, step))) result out.new }
{
    let end = put_end(out, place, sort, first);
    if once(first, last, step) {
        return end;
    }
    put_behind(out, end, sort, last, step)
}

// The same by the sort's number, weekdays from 3 on.
pub fn put_item(
    out: &mut [u8],
    place: usize,
    sort: usize,
    first: u64,
    last: u64,
    step: u64,
) -> usize
    requires { ((end_text (sort_named sort)).fits first ≡ true) × ((end_text (sort_named sort)).fits last ≡ true)
        × Within place ((item_text (sort_named sort)).write (first, (last, step))) }
    ensures { Put out.old place ((item_text (sort_named sort)).write (first, (last, step))) result out.new }
{
    put_days(out, place, DaySort::from(sort), first, last, step)
}
