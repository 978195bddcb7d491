// Whether all pages' lists are short: then their days have few words, and a small book will do.
ghost use Rattle.std.specs.Prelude.{◌≡◌, true, List, ℕ};
ghost use Rattle.definition.specs.Sheet.{Form};
ghost use Rattle.tables.specs.Pages.{Pages};
ghost use Rattle.tables.specs.Sizes.{day_room};

use tables::page::page_size;

// Whether no page's list has more than 4 rules: its days have 257 words at most. Only how much is cleared hangs on it.
pub fn all_short(lists: &[u16], pages: &[u16], count: usize) -> bool
    requires { (form : Form) × (states : List ℕ) × (counts : List ℕ) × (spans : List ℕ) × Pages form states counts spans lists.now pages.now day_room count 0 }
    ensures { result ≡ true → (form : Form) (states counts spans : List ℕ) → Pages form states counts spans lists.now pages.now day_room count 0
        → Pages form states counts spans lists.now pages.now 257 count 0 }
{
    let mut here: usize = 0;
    for _page in 0..count {
        let place = usize::from(pages[here]) - 1;
        if lists[place * tables::LIST_PLACES] > 4 {
            return false;
        }
        here += page_size(pages, here);
    }
    true
}
