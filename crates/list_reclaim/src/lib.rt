// Room given back: the lists that no box holds any longer go, the others move down to the first places, and the cells name them anew. A memo
// with an entry for each number that a cell can have says on the way which lists are held, then where each of them is now.
#![tactic(auto)]

ghost use Rattle.std.specs.Prelude.{◌≡◌, ℕ, ◌+◌, ◌*◌, ◌≤◌, ◌<◌, length, get_or};
ghost use Rattle.tables.specs.Sizes.{list_limit, list_places};
ghost use Rattle.tables.specs.Lists.{Store};
ghost use Rattle.tables.specs.Copied.{Copied};
ghost use Rattle.list_reclaim.specs.Reclaim.{Marked, Moved, MovedOne, Reclaimed};

use tables::LIST_PLACES;
use tables::cells::rename;
use tables::copy::copy_words;

// Every entry 0.
fn clear(memo: &mut [u16])
    ensures { (k : ℕ) → get_or memo.new k 0 ≡ 0 }
{
    for k in 0..memo.len() {
        memo[k] = 0;
    }
}

// Marks the numbers that cells have.
fn mark(cells: &[u16], memo: &mut [u16])
    requires { (box : ℕ) → get_or cells.now box 0 < length memo.old }
    ensures { Marked cells.now memo.old memo.new (length cells.now) }
{
    for box_index in 0..cells.len() {
        memo[usize::from(cells[box_index])] = 1;
    }
}

// A place's list, its number of rules and these, at a place not behind it; a list that stays where it is isn't copied.
fn copy_list(lists: &mut [u16], place: usize, next: usize)
    requires { (next ≤ place) × (place * list_places + list_places ≤ length lists.old) × (get_or lists.old (place * list_places) 0 ≤ list_limit) }
    ensures { Copied lists.old lists.new (place * list_places) (next * list_places) (get_or lists.old (place * list_places) 0 + 1) }
{
    if next == place {
        return;
    }
    let from = place * LIST_PLACES;
    let rules = usize::from(lists[from]);
    copy_words(lists, from, next * LIST_PLACES, rules + 1);
}

// Moves a place's list to the next free place, if its number is marked; answers the next free place then.
fn move_list(lists: &mut [u16], memo: &mut [u16], place: usize, next: usize) -> usize
    requires { (next ≤ place) × (place * list_places + list_places ≤ length lists.old) × (get_or lists.old (place * list_places) 0 ≤ list_limit)
        × (place + 1 < length memo.old) × (place + 1 < 65536) }
    ensures { MovedOne lists.old memo.old lists.new memo.new place next result }
{
    if memo[place + 1] != 1 {
        return next;
    }
    copy_list(lists, place, next);
    memo[place + 1] = (next + 1) as u16;
    next + 1
}

// Moves the marked lists down, in their order; answers how many there are. A mark becomes its list's new number.
fn move_down(lists: &mut [u16], memo: &mut [u16], used: usize) -> usize
    requires { (used * list_places ≤ length lists.old) × (used < length memo.old) × (used < 65536)
        × ((l : ℕ) → l < used → get_or lists.old (l * list_places) 0 ≤ list_limit) }
    ensures { Moved lists.old memo.old lists.new memo.new used result }
{
    let mut next: usize = 0;
    for place in 0..used {
        next = move_list(lists, memo, place, next);
    }
    next
}

// The store without the lists that no box holds; answers how many are left.
pub fn reclaim(cells: &mut [u16], lists: &mut [u16], memo: &mut [u16], used: usize) -> usize
    requires { Store cells.old lists.old used × (used < length memo.old) × (used < 65536) }
    ensures { Reclaimed cells.old lists.old cells.new lists.new memo.new used result }
{
    clear(memo);
    mark(cells, memo);
    memo[0] = 0;
    let kept = move_down(lists, memo, used);
    rename(cells, memo);
    clear(memo);
    kept
}
