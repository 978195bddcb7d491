// A day's rules over items, measured and written: the first entry Normal, all others Additional. The day stands as words, entry after
// entry: its state, how many spans, their numbers; the items stand as counts of pairs by sorts and the pairs' ends, as in `rule_writer`.
#![tactic(auto)]

ghost use Rattle.std.specs.Prelude.{◌≡◌, List, ℕ, ◌*◌, ◌≤◌, ◌<◌, ◌^◌, length, get_or};
ghost use Rattle.laws.specs.Lists.{any_of};
ghost use Rattle.definition.specs.Fold.{many_items};
ghost use Rattle.forms.specs.Form.{as_form};
ghost use Rattle.item_writer.specs.Written.{RoomFor, Wrote};
ghost use Rattle.tables.specs.Items.{row_place, Rows, rows_below};
ghost use Rattle.day_writer.specs.Rules.{bits_per_word, Countable, many_counted, rules_bits, day_in, Whole};
ghost use Rattle.tables.specs.Pages.{day_rules};

use forms::{Form, most_items};
use rule_size::rule_bits;
use rule_writer::rule::put_rule;

// How many rules a day makes, how many bits these take, and whether one of them has more items of a sort than the counts of the form can carry.
#[derive(Clone, Copy)]
pub struct Measure {
    pub rules: usize,
    pub bits: usize,
    pub past: bool,
}

// Whether some sort has more items than the counts of a form can carry.
pub fn many_items(form: Form, item_counts: &[u16]) -> bool
    requires { 4 ≤ length item_counts.now }
    ensures { result ≡ many_counted (as_form form) item_counts.now }
{
    let most = most_items(form);
    for sort in 0..4 {
        if item_counts[sort] > most {
            return true;
        }
    }
    false
}

// The measure of a day in words, whatever the items' ends: no operator or end changes how many bits a rule takes. An entry says how many spans it has,
// so that only then it is known where the next one begins: no `for` goes over them.
pub fn measure_day(form: Form, words: &[u64], item_counts: &[u16]) -> Measure
    requires in_bounds { (4 ≤ length item_counts.now) × ((sort : ℕ) → get_or item_counts.now sort 0 < 2 ^ 12) }
    requires whole { Whole (as_form form) words.now 0 (length words.now) }
    requires count_bound { length words.now < 2 ^ 32 }
    ensures { ((ends : List ℕ) → row_place item_counts.now 4 ≤ length ends
        → (length (day_rules (rows_below ends item_counts.now 4) (day_in words.now 0 (length words.now))) ≡ result.rules)
        × (length (rules_bits (as_form form) (day_rules (rows_below ends item_counts.now 4) (day_in words.now 0 (length words.now)))) ≡ result.bits)
        × (any_of (many_items (as_form form)) (day_rules (rows_below ends item_counts.now 4) (day_in words.now 0 (length words.now))) ≡ result.past))
        × (result.rules ≤ length words.now) × (result.bits ≤ bits_per_word * length words.now) }
{
    let mut rules: usize = 0;
    let mut bits: usize = 0;
    let mut at: usize = 0;
    while at < words.len() {
        let spans = at + 2;
        let behind = spans + words[at + 1] as usize;
        rules += 1;
        bits += rule_bits(form, item_counts, &words[spans..behind]);
        at = behind;
    }
    Measure {
        rules,
        bits,
        past: rules > 0 && many_items(form, item_counts),
    }
}

// Writes the rules of a day in words, the first Normal, all others Additional; answers the place after them.
pub fn write_day(
    form: Form,
    out: &mut [u8],
    at: usize,
    words: &[u64],
    ends: &[u16],
    item_counts: &[u16],
) -> usize
    requires whole { Whole (as_form form) words.now 0 (length words.now) }
    requires rows { Rows ends.now item_counts.now }
    requires countable { Countable (as_form form) (day_rules (rows_below ends.now item_counts.now 4) (day_in words.now 0 (length words.now))) }
    requires room_for { RoomFor (length out.old) at
        (rules_bits (as_form form) (day_rules (rows_below ends.now item_counts.now 4) (day_in words.now 0 (length words.now)))) }
    ensures { Wrote out.old at
        (rules_bits (as_form form) (day_rules (rows_below ends.now item_counts.now 4) (day_in words.now 0 (length words.now)))) out.new result }
{
    let mut next = at;
    let mut operator = 0;
    let mut entry: usize = 0;
    // As in `measure_day`, an entry says where the next one begins.
    while entry < words.len() {
        let spans = entry + 2;
        let behind = spans + words[entry + 1] as usize;
        next = put_rule(
            form,
            out,
            next,
            operator,
            words[entry],
            ends,
            item_counts,
            &words[spans..behind],
        );
        operator = 1;
        entry = behind;
    }
    next
}
