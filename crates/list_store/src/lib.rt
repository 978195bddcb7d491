// A rule at one box of the store: equal lists are kept once, and a box's cell names its list by number: 0 the empty list, l + 1 the list at
// place l. What a rule makes of a list is made once: the memo has, for each number that a cell had before the rule, the number of the list that
// the rule made of it. A number above `before`, as many lists as there were before the rule, is one that this rule made: so a memo of an
// earlier rule is told from this one's, and a box that the rule has drawn already from one that it hasn't.
#![tactic(auto)]

ghost use Rattle.std.specs.Prelude.{◌≡◌, cond, [], ◌∷◌, ◌+◌, ◌*◌, ◌≤◌, ◌<◌, ltb, length};
ghost use Rattle.tables.specs.Sizes.{list_limit, list_places};
ghost use Rattle.tables.specs.Lists.{named};
ghost use Rattle.list_store.specs.Draw.{Appended, Making, Walked};

use limits::entry_allowed;
use tables::LIST_PLACES;
use tables::copy::copy_words;

// How many lists are in use, and whether a list had no room for a rule.
#[derive(Clone, Copy)]
pub struct Drawn {
    pub used: usize,
    pub overflowed: bool,
}

// Whether the list that a number names has room for another rule.
fn has_room(lists: &[u16], number: usize) -> bool
    requires { number * list_places ≤ length lists.now }
    ensures { result ≡ ltb (length (named lists.now number)) list_limit }
{
    number == 0 || entry_allowed(lists[(number - 1) * LIST_PLACES])
}

// Puts the list that a number names, with a rule at its end, at a place behind it. Words are copied by eights, which the compiler copies at once: those
// behind a list are no one's.
fn append(lists: &mut [u16], number: usize, place: usize, rule: u16)
    requires { (number ≤ place) × (place * list_places + list_places ≤ length lists.old) × (length (named lists.old number) < list_limit) }
    ensures { Appended lists.old lists.new number place rule }
{
    let to = place * LIST_PLACES;
    if number == 0 {
        lists[to] = 1;
        lists[to + 1] = rule;
        return;
    }
    let from = (number - 1) * LIST_PLACES;
    let count = lists[from];
    let entries = usize::from(count);
    let words = (entries + 7) / 8 * 8;
    copy_words(lists, from + 1, to + 1, words);
    lists[to] = count + 1;
    lists[to + 1 + entries] = rule;
}

// The number of the list at whose end the rule is put: the empty one, where the rule replaces.
fn key_of(replaces: bool, number: usize) -> usize
    ensures { result ≡ cond replaces 0 number }
{
    if replaces { 0 } else { number }
}

// A rule at a box. A list that has no room for it stays as it is, and the flag is set.
pub fn draw(
    cells: &mut [u16],
    lists: &mut [u16],
    memo: &mut [u16],
    rule: u16,
    replaces: bool,
    before: usize,
    drawn: Drawn,
    box_index: usize,
) -> Drawn
    requires making { Making cells.old lists.old memo.old rule before drawn.used }
    requires box_index_in_bounds { box_index < length cells.old }
    ensures { Walked cells.old lists.old drawn.used drawn.overflowed
        cells.new lists.new memo.new result.used result.overflowed rule replaces before (box_index ∷ []) }
{
    let used = drawn.used;
    let number = usize::from(cells[box_index]);
    if number > before {
        return drawn;
    }
    let key = key_of(replaces, number);
    let made = memo[key];
    if usize::from(made) > before {
        cells[box_index] = made;
        return drawn;
    }
    if has_room(lists, key) {
        append(lists, key, used, rule);
        memo[key] = (used + 1) as u16;
        cells[box_index] = (used + 1) as u16;
        return Drawn {
            used: used + 1,
            overflowed: drawn.overflowed,
        };
    }
    Drawn {
        used: used,
        overflowed: true,
    }
}
