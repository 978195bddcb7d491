// The sorts of a rule's items, in the order in which their rows stand in a sheet.
ghost use Rattle.std.specs.Prelude.{◌≡◌};
ghost use Rattle.item.specs.Sort.{number_of, named};

#[derive(Clone, Copy, Debug, PartialEq, Eq)]
pub enum Sort {
    Years,
    Monthdays,
    Weeks,
    Weekdays,
    Spans,
}

// Each number names a sort: 0 to 3 those of days, every other one the spans.
impl From<usize> for Sort {
    ghost from_gives = { λ number sort. number_of sort ≡ named number };

    fn from(number: usize) -> Sort {
        match number {
            0 => Sort::Years,
            1 => Sort::Monthdays,
            2 => Sort::Weeks,
            3 => Sort::Weekdays,
            _ => Sort::Spans,
        }
    }
}
