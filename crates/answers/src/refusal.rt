// Why a sheet, or a question about one, is refused, and where: what every reader and every stage answers where it cannot go on.
ghost use Rattle.std.specs.Prelude.{◌≡◌};
ghost use Rattle.answers.specs.Refusal.{code_of};

// 01's table of refusals, and 02's: each with the code that users get for it.
#[derive(Clone, Copy, Debug, PartialEq, Eq)]
pub enum Reason {
    // a field runs past the end
    PastEnd = 1,
    // a field that isn't a count holds an unlawful value
    Unlawful = 2,
    // a padding bit is set, or bytes follow
    BadEnd = 3,
    // a count passes its limit
    OverLimit = 4,
    // boxes over the limit
    ManyBoxes = 5,
    // some point's list passes the limit after a drained rule
    LongList = 6,
    // the output buffer is shorter than the result
    NoRoom = 7,
    // lookup only: no such date or minute
    NoDate = 8,
    // lookup only: a rule is left, or the point's list holds a non-simple span
    Unsettled = 9,
    // line only: a rule has no words, or the first isn't Normal
    NoWords = 10,
    // fold and lookup: two ranges of one selector share a value in a drained rule
    DaysTwice = 11,
    // conversion only: a comment has no room in the other form
    LongComment = 12,
    // fold only: the result has more rules or items than the form's counts can carry
    PastCounts = 13,
    // fold and lookup: too many lists stand at points after a drained rule
    ManyLists = 14,
}

impl Reason {
    // The code of 01's table.
    pub fn code(self) -> u8
        ensures { result ≡ code_of self }
    {
        self as u8
    }
}

// A refusal: why, and the bit or the place that it is at.
#[derive(Clone, Copy, Debug, PartialEq, Eq)]
pub struct Refusal {
    pub reason: Reason,
    pub place: usize,
}

// What a reader answers: what it read with the bit after it, or a refusal.
pub type Read<T> = Result<(T, usize), Refusal>;
