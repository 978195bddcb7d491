// Scratch arrays, and how large they are: for the words of a day and for folding a list, by how long the list is, and for what the plain engine notes of
// days and boxes. An array is made in a function of its own, so that a proof knows its length from the contract and never looks at the array.
#![tactic(auto)]

ghost use Rattle.std.specs.Prelude.{◌≡◌, length};

// The words of a day of a list of up to 4 rules, and of up to 32: 64 words for each rule, and one.
pub const FEW_WORDS: usize = 257;

pub const WORDS: usize = 2049;

// The spans of a list of up to 4 rules of 16 spans, of up to 12 rules, and of up to 32, the most that a list has.
pub const FEW_SPANS: usize = 64;

pub const SOME_SPANS: usize = 192;

pub const SPANS: usize = 512;

// Both ends of these spans and of the day.
pub const FEW_ENDS: usize = 130;

pub const SOME_ENDS: usize = 386;

pub const ENDS: usize = 1026;

// A class for the empty day, and one for the day of each box where each has a list of its own, with as many boxes as there may be.
pub const BOX_CLASSES: usize = 4097;

// A mark for each interval of four dimensions: with 4,096 boxes there are at most 4,099.
pub const MARKS: usize = 4099;

// As many zeros as the array's type says.
pub fn zeros<T: Copy + Default, const N: usize>() -> [T; N]
    ensures { N ≡ length result }
{
    [T::default(); N]
}
