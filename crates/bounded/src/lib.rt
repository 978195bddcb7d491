// Four kinds of numbers, so that a week is never passed for a year, and how an item's first and last value become ranges. Ported from
// normalize/bounded.rs. The definition is definition's specs/Rule (bounds) and specs/Range (`split`); specs/Kind and specs/Strict say what the
// code's answers stand for.
//
// Ranges are plain numbers of 32 bits, whatever the kind: so every item, lawful or not, has its ranges, and no function here has a `requires`.
#![tactic(auto)]

mod kinds;

ghost use Rattle.std.specs.Prelude.{◌≡◌, ℕ, suc, cond, ◌+◌, ◌-◌, ltb};
ghost use Rattle.grid.specs.Cut.{Range};
ghost use Rattle.definition.specs.Range.{split};
ghost use Rattle.bounded.specs.Strict.{pair_of, strict, list_of, inclusive, ends_of};
ghost use Rattle.bounded.specs.Kind.{next, prior, number_in};

pub use kinds::{Month, OrderedWeekday, WeekNum, Year};

// A range from its start up to its end, excluded.
#[derive(Clone, Copy, PartialEq, Eq)]
pub struct StrictRange {
    pub start: u32,
    pub end: u32,
}

// An item's ranges: one, or two where it wraps.
#[derive(Clone, Copy, PartialEq, Eq)]
pub enum Split {
    One(StrictRange),
    Two(StrictRange, StrictRange),
}

// From start up to end's successor, excluded.
pub fn to_range_strict(start: u16, end: u16) -> StrictRange
    ensures { pair_of result ≡ strict (start, end) }
{
    StrictRange {
        start: u32::from(start),
        end: u32::from(end) + 1,
    }
}

// The item from start to end, both included, as one range; or, where start is at or above the end, as two: lowest up to end, and
// start up to upper.
pub fn split_inverted_range(bounds: StrictRange, start: u16, end: u16) -> Split
    ensures { list_of result ≡ split (pair_of bounds) (start, end) }
{
    let range = to_range_strict(start, end);
    if range.end <= range.start {
        let low = StrictRange {
            start: bounds.start,
            end: range.end,
        };
        let high = StrictRange {
            start: range.start,
            end: bounds.end,
        };
        Split::Two(low, high)
    } else {
        Split::One(range)
    }
}

// The first and last value of a strict range, nothing where it is empty. No bound comes in: upper's predecessor is the highest.
pub fn to_range_inclusive(range: StrictRange) -> Option<(u32, u32)>
    ensures { ends_of result ≡ inclusive (pair_of range) }
{
    if range.start < range.end {
        Some((range.start, range.end - 1))
    } else {
        None
    }
}

// A kind of numbers: a lowest, a highest, and the upper value next to the highest, which is none of the kind.
pub trait Bounded: Copy {
    ghost number_of: { Self → ℕ };

    // from the lowest up to the upper value, excluded
    ghost bounds_of: { Range };

    const BOUND_START: Self;

    ghost BOUND_START: { Self };

    const BOUND_END: Self;

    ghost BOUND_END: { Self };

    const BOUND_UPPER: Self;

    ghost BOUND_UPPER: { Self };

    fn number(self) -> u16
        ensures { result ≡ number_of self };

    // One step up; the upper value stays, and what lies above it.
    fn next(self) -> Self
        ensures { number_of result ≡ cond (ltb (number_of self) (number_of BOUND_UPPER)) (number_of self + 1) (number_of self) };

    // One step down; 0 stays.
    fn prev(self) -> Self
        ensures { number_of result ≡ number_of self - 1 };

    ghost starts: { number_of BOUND_START ≡ bounds_of.0 };

    ghost ends: { suc (number_of BOUND_END) ≡ bounds_of.1 };

    ghost upper: { number_of BOUND_UPPER ≡ bounds_of.1 };

    // The next value; nothing after the highest.
    final fn succ(self) -> Option<Self>
        ensures { number_in number_of result ≡ next bounds_of (number_of self) }
    {
        if self.number() < Self::BOUND_END.number() {
            Some(self.next())
        } else {
            None
        }
    }

    // The value before; nothing before the lowest.
    final fn pred(self) -> Option<Self>
        ensures { number_in number_of result ≡ prior bounds_of (number_of self) }
    {
        if Self::BOUND_START.number() < self.number() {
            Some(self.prev())
        } else {
            None
        }
    }

    // From the lowest up to the upper value, which is excluded.
    final fn bounds() -> StrictRange
        ensures { pair_of result ≡ bounds_of }
    {
        StrictRange {
            start: u32::from(Self::BOUND_START.number()),
            end: u32::from(Self::BOUND_UPPER.number()),
        }
    }

    // An item of the kind, as ranges.
    final fn split_inverted_range(start: Self, end: Self) -> Split
        ensures { list_of result ≡ split bounds_of (number_of start, number_of end) }
    {
        split_inverted_range(Self::bounds(), start.number(), end.number())
    }
}
