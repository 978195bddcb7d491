// The class of a day, from its flat form.
ghost use Rattle.std.specs.Prelude.{◌≡◌};
ghost use Rattle.laws.specs.Lists.{every};
ghost use Rattle.definition.specs.Group.{day_class};
ghost use Rattle.day_flat.specs.Day.{unflat, of_kind};

use codes::kind_of;

// Whether each entry has the kind.
fn all_of_kind(words: &[u64], kind: u8) -> bool
    ensures { result ≡ every (of_kind kind) (unflat words.now) }
{
    match words {
        [] => true,
        [state] => kind_of(*state) == kind,
        [state, spans, rest @ ..] => {
            let spans = *spans as usize;
            kind_of(*state) == kind && (rest.len() <= spans || all_of_kind(&rest[spans..], kind))
        }
    }
}

// The class of the day that words stand for: 1 all Open, 2 first Open, 3 all Unknown, 4 first Unknown, 5 any other, 0 the empty day. The numbers are
// the definition's, and stand in tables between the stages.
pub fn day_class(words: &[u64]) -> u8
    ensures { result ≡ day_class (unflat words.now) }
{
    let [first, ..] = words else {
        return 0;
    };
    let kind = kind_of(*first);
    let alike = all_of_kind(words, kind);
    match kind {
        0 => if alike { 1 } else { 2 },
        1 => 5,
        _ => if alike { 3 } else { 4 },
    }
}
