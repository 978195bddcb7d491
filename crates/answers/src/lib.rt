// What users get: the numbers of a fold, of a lookup, and of an entry that writes a sheet or a line; and what these are on a refusal.
#![tactic(auto)]

pub mod lent;
pub mod refusal;

ghost use Rattle.std.specs.Prelude.{◌≡◌};
ghost use Rattle.definition.specs.Fold.{numbers, refusal, unwritten, written_numbers};
ghost use Rattle.definition.specs.Lookup as state;
ghost use Rattle.answers.specs.Numbers.{fold_numbers, looked_up, write_numbers};
ghost use Rattle.answers.specs.Refusal.{code_of};

pub use refusal::{Read, Reason, Refusal};

// "The fold answers code, drained, emitted (folded rules only), left (rules copied), bytes written, place." And 02: why it stopped, "0 if nothing
// stopped".
#[derive(Clone, Copy)]
pub struct Folded {
    pub code: u64,
    pub drained: u64,
    pub emitted: u64,
    pub left: u64,
    pub bytes: u64,
    pub place: u64,
    pub why: u64,
}

// The lookup "answers code, kind, comment and the table's place".
#[derive(Clone, Copy)]
pub struct Answer {
    pub code: u64,
    pub kind: u64,
    pub comment: u64,
    pub place: u64,
}

// "Every other entry that writes a sheet or text answers code, bytes written and place".
#[derive(Clone, Copy)]
pub struct Written {
    pub code: u8,
    pub bytes: usize,
    pub place: usize,
}

// "On a refusal every number but code and place is 0."
pub fn fold_refused(code: u64, place: u64) -> Folded
    ensures { fold_numbers result ≡ numbers (refusal code place) }
{
    Folded {
        code,
        drained: 0,
        emitted: 0,
        left: 0,
        bytes: 0,
        place,
        why: 0,
    }
}

// "refused, kind and comment are 0".
pub fn lookup_refused(code: u64, place: u64) -> Answer
    ensures { looked_up result ≡ state.refusal code place }
{
    Answer {
        code,
        kind: 0,
        comment: 0,
        place,
    }
}

impl Folded {
    // A fold that was refused.
    pub fn refused(why: Refusal) -> Folded
        ensures { fold_numbers result ≡ numbers (refusal (code_of why.reason) why.place) }
    {
        fold_refused(u64::from(why.reason.code()), why.place as u64)
    }
}

impl Answer {
    // A lookup that was refused.
    pub fn refused(why: Refusal) -> Answer
        ensures { looked_up result ≡ state.refusal (code_of why.reason) why.place }
    {
        lookup_refused(u64::from(why.reason.code()), why.place as u64)
    }
}

impl Written {
    // What a refused entry answers: nothing was written.
    pub fn refused(why: Refusal) -> Written
        ensures { write_numbers result ≡ written_numbers (unwritten (code_of why.reason) why.place) }
    {
        Written {
            code: why.reason.code(),
            bytes: 0,
            place: why.place,
        }
    }
}
