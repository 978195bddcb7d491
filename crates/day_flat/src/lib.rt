// Days in their flat form, as words: for each entry its state, how many spans it has, and these. Whether two days are equal, a number that
// equal ones share, and the class of one.
#![tactic(auto)]

pub mod class;

ghost use Rattle.std.specs.Prelude.{◌≡◌, eqb};
ghost use Rattle.laws.specs.Tests.{same_list};
ghost use Rattle.day_flat.specs.Day.{fingerprint_of};

// Whether two days' words are equal.
pub fn same_words(a: &[u64], b: &[u64]) -> bool
    ensures { result ≡ same_list eqb a.now b.now }
{
    a == b
}

// A number that equal words share.
pub fn fingerprint(words: &[u64]) -> u64
    ensures { result ≡ fingerprint_of 0 words.now }
{
    let mut mixed: u64 = 0;
    for word in words {
        mixed = (mixed * 1009 + *word % 1000003) % 1000003;
    }
    mixed
}
