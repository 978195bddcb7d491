// Counts the pages in the buffer, up to the place where they end: the writer of pages must be told how many there are.
#![tactic(auto)]

ghost use Rattle.std.specs.Prelude.{◌≡◌, ℕ, ◌≤◌, length};
ghost use Rattle.tables.specs.Pages.{Counted};

use tables::page::page_size;

// How many pages stand before a place where a page ends. A page says how long it is, so that only then it is known where the next one begins: no `for` goes
// over them.
pub fn count_pages(pages: &[u16], stop: usize) -> usize
    requires by_index { (n : ℕ) × Counted pages.now n 0 stop }
    requires stop_in_bounds { stop ≤ length pages.now }
    ensures { (n : ℕ) → Counted pages.now n 0 stop → result ≡ n }
{
    let mut at: usize = 0;
    let mut page_count: usize = 0;
    while at < stop {
        at += page_size(pages, at);
        page_count += 1;
    }
    page_count
}
