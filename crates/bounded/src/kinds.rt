// The four kinds of numbers, each with its lowest, its highest and its upper value. What all of them do is in the trait `Bounded`.
ghost use Rattle.std.specs.Prelude.{refl};
ghost use Rattle.definition.specs.Rule.{weekday_bounds, week_bounds, month_bounds, year_bounds};

use super::Bounded;

// Weekdays, Monday 0.
#[derive(Clone, Copy, PartialEq, Eq, PartialOrd, Ord)]
pub struct OrderedWeekday(pub u8);

impl Bounded for OrderedWeekday {
    ghost number_of = { λ weekday. weekday.0 };

    ghost bounds_of = { weekday_bounds };

    const BOUND_START: Self = OrderedWeekday(0);

    ghost BOUND_START = { record { 0 = 0 } };

    const BOUND_END: Self = OrderedWeekday(6);

    ghost BOUND_END = { record { 0 = 6 } };

    const BOUND_UPPER: Self = OrderedWeekday(7);

    ghost BOUND_UPPER = { record { 0 = 7 } };

    fn number(self) -> u16 {
        u16::from(self.0)
    }

    fn next(self) -> OrderedWeekday {
        if self.0 < Self::BOUND_UPPER.0 {
            OrderedWeekday(self.0 + 1)
        } else {
            self
        }
    }

    fn prev(self) -> OrderedWeekday {
        OrderedWeekday(self.0.saturating_sub(1))
    }

    ghost starts = { refl };

    ghost ends = { refl };

    ghost upper = { refl };
}

// Weeks of a year.
#[derive(Clone, Copy, PartialEq, Eq, PartialOrd, Ord)]
pub struct WeekNum(pub u8);

impl Bounded for WeekNum {
    ghost number_of = { λ week. week.0 };

    ghost bounds_of = { week_bounds };

    const BOUND_START: Self = WeekNum(1);

    ghost BOUND_START = { record { 0 = 1 } };

    const BOUND_END: Self = WeekNum(53);

    ghost BOUND_END = { record { 0 = 53 } };

    const BOUND_UPPER: Self = WeekNum(54);

    ghost BOUND_UPPER = { record { 0 = 54 } };

    fn number(self) -> u16 {
        u16::from(self.0)
    }

    fn next(self) -> WeekNum {
        if self.0 < Self::BOUND_UPPER.0 {
            WeekNum(self.0 + 1)
        } else {
            self
        }
    }

    fn prev(self) -> WeekNum {
        WeekNum(self.0.saturating_sub(1))
    }

    ghost starts = { refl };

    ghost ends = { refl };

    ghost upper = { refl };
}

// Months, January 1.
#[derive(Clone, Copy, PartialEq, Eq, PartialOrd, Ord)]
pub struct Month(pub u8);

impl Bounded for Month {
    ghost number_of = { λ month. month.0 };

    ghost bounds_of = { month_bounds };

    const BOUND_START: Self = Month(1);

    ghost BOUND_START = { record { 0 = 1 } };

    const BOUND_END: Self = Month(12);

    ghost BOUND_END = { record { 0 = 12 } };

    const BOUND_UPPER: Self = Month(13);

    ghost BOUND_UPPER = { record { 0 = 13 } };

    fn number(self) -> u16 {
        u16::from(self.0)
    }

    fn next(self) -> Month {
        if self.0 < Self::BOUND_UPPER.0 {
            Month(self.0 + 1)
        } else {
            self
        }
    }

    fn prev(self) -> Month {
        Month(self.0.saturating_sub(1))
    }

    ghost starts = { refl };

    ghost ends = { refl };

    ghost upper = { refl };
}

// Years.
#[derive(Clone, Copy, PartialEq, Eq, PartialOrd, Ord)]
pub struct Year(pub u16);

impl Bounded for Year {
    ghost number_of = { λ year. year.0 };

    ghost bounds_of = { year_bounds };

    const BOUND_START: Self = Year(1900);

    ghost BOUND_START = { record { 0 = 1900 } };

    const BOUND_END: Self = Year(9999);

    ghost BOUND_END = { record { 0 = 9999 } };

    const BOUND_UPPER: Self = Year(10000);

    ghost BOUND_UPPER = { record { 0 = 10000 } };

    fn number(self) -> u16 {
        self.0
    }

    fn next(self) -> Year {
        if self.0 < Self::BOUND_UPPER.0 {
            Year(self.0 + 1)
        } else {
            self
        }
    }

    fn prev(self) -> Year {
        Year(self.0.saturating_sub(1))
    }

    ghost starts = { refl };

    ghost ends = { refl };

    ghost upper = { refl };
}
