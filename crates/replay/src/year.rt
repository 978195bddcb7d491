// Do a year's days have the digest that a record tells? Told: YEAR DIGEST in eight bytes each. With each day the digest is taken 500 times, 8 times
// the week and the weekday are added, and the remainder by the largest prime below 10 ^ 16 is kept. So a day in another week shows, and a day too
// many or too few: two digests are the same by chance once in 10 ^ 16 times.
ghost use Rattle.std.specs.Prelude.{◌≤◌};

use crate::record::long_number;

// A day more; none where there is no such date.
fn with_day(digest: u64, year: u64, month: u64, day: u64) -> u64
    requires { digest ≤ 9999999999999936 }
    ensures { result ≤ 9999999999999936 }
{
    match calendar::point_of(year, month, day) {
        Some(point) => {
            (digest * 500 + (8 * u64::from(point.week) + u64::from(point.weekday)))
                % 9999999999999937
        }
        None => digest,
    }
}

// A month's days more, none of a month having more than 31.
fn with_month(digest: u64, year: u64, month: u64) -> u64
    requires { digest ≤ 9999999999999936 }
    ensures { result ≤ 9999999999999936 }
{
    let mut digest = digest;
    for day in 1..32 {
        digest = with_day(digest, year, month, day);
    }
    digest
}

fn of_year(year: u64) -> u64 {
    let mut digest: u64 = 0;
    for month in 1..13 {
        digest = with_month(digest, year, month);
    }
    digest
}

pub fn agrees(told: &[u8]) -> bool {
    if told.len() < 16 {
        return false;
    }
    of_year(long_number(told, 0)) == long_number(told, 8)
}
