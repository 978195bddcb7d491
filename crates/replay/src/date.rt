// Does the calendar say of a date what a record tells? Told: YEAR MONTH DAY in eight bytes each, WEEKDAY WEEK, 9 and 99 for no date.
use crate::record::{long_number, number};

pub fn agrees(told: &[u8]) -> bool {
    if told.len() < 30 {
        return false;
    }
    let year = long_number(told, 0);
    let month = long_number(told, 8);
    let weekday = number(told, 24);
    let week = number(told, 27);
    match calendar::point_of(year, month, long_number(told, 16)) {
        Some(point) => {
            usize::from(point.weekday) == weekday
                && usize::from(point.week) == week
                && u64::from(point.month) == month
                && u64::from(point.year) == year
        }
        None => weekday == 9 && week == 99,
    }
}
