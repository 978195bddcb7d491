// How many different lists the boxes have: `kinds` names a box for each list that was found.
ghost use Rattle.std.specs.Prelude.{◌≡◌, map, ℕ, ◌+◌, ◌≤◌, ◌<◌, eqb, ltb, length, get_or};
ghost use Rattle.laws.specs.Lists.{from, any_of};
ghost use Rattle.laws.specs.Tests.{same_list};
ghost use Rattle.definition.specs.Sheet.{sheet_limits};
ghost use Rattle.definition.specs.Lists.{distinct_lists};
ghost use Rattle.tables.specs.Lists.{list_of};
ghost use Rattle.plain_lists.specs.Draw.{HasList, HaveLists};
ghost use Rattle.plain_lists.specs.Kinds.{Kinds};

use limits::lists_over;
use tables::LIST_PLACES;

// Whether two boxes have the same list: as many rules, and the same one at each place.
fn same_list(lists: &[u16], first: usize, second: usize) -> bool
    requires { HasList lists.now first × HasList lists.now second }
    ensures { result ≡ same_list eqb (list_of lists.now first) (list_of lists.now second) }
{
    let one = first * LIST_PLACES;
    let other = second * LIST_PLACES;
    let end = usize::from(lists[one]) + 1;
    for place in 0..end {
        if lists[one + place] != lists[other + place] {
            return false;
        }
    }
    true
}

// Whether one of the first `count` boxes that `kinds` names has the list of a box.
fn is_known(lists: &[u16], kinds: &[u16], count: usize, box_index: usize) -> bool
    requires { HasList lists.now box_index × (count ≤ length kinds.now) × ((kind : ℕ) → kind < count → HasList lists.now (get_or kinds.now kind 0)) }
    ensures { result ≡ any_of (λ kind. same_list eqb (list_of lists.now (get_or kinds.now kind 0)) (list_of lists.now box_index)) (from 0 count) }
{
    for kind in 0..count {
        if same_list(lists, usize::from(kinds[kind]), box_index) {
            return true;
        }
    }
    false
}

// Notes the list of a box among the first `count` kinds, unless it is empty or known. Answers how many kinds there are then.
fn note(lists: &[u16], kinds: &mut [u16], count: usize, box_index: usize) -> usize
    requires { HaveLists lists.now (box_index + 1) × (count < length kinds.old) × Kinds lists.now kinds.old count box_index }
    ensures { (result ≤ count + 1) × Kinds lists.now kinds.new result (box_index + 1) }
{
    if lists[box_index * LIST_PLACES] == 0 || is_known(lists, kinds, count, box_index) {
        return count;
    }
    kinds[count] = box_index as u16;
    count + 1
}

// Whether there are more than 512 different lists, the empty one not counted, where `kinds` has room for 513.
fn counts_over(lists: &[u16], kinds: &mut [u16], boxes: usize) -> bool
    requires { HaveLists lists.now boxes × (sheet_limits.lists < length kinds.old) }
    ensures { result ≡ ltb sheet_limits.lists (length (distinct_lists (map (list_of lists.now) (from 0 boxes)))) }
{
    let mut count = 0;
    for box_index in 0..boxes {
        count = note(lists, kinds, count, box_index);
        if lists_over(count) {
            return true;
        }
    }
    false
}

// Whether the boxes have more than 512 different lists. So many boxes or fewer can't, and are not searched.
pub fn too_many(lists: &[u16], boxes: usize) -> bool
    requires { HaveLists lists.now boxes }
    ensures { result ≡ ltb sheet_limits.lists (length (distinct_lists (map (list_of lists.now) (from 0 boxes)))) }
{
    if !lists_over(boxes) {
        return false;
    }
    let mut kinds = [0u16; 513];
    counts_over(lists, &mut kinds, boxes)
}
