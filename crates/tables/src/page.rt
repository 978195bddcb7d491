// A page in a row of numbers: a day's number, how many items each sort has, and the items' ends.
ghost use Rattle.std.specs.Prelude.{◌≡◌, ◌+◌, ◌≤◌, length};
ghost use Rattle.tables.specs.Pages.{page_size};

// How many numbers a page has.
pub fn page_size(pages: &[u16], at: usize) -> usize
    requires { at + 5 ≤ length pages.now }
    ensures { result ≡ page_size pages.now at }
{
    let years = usize::from(pages[at + 1]);
    let months = usize::from(pages[at + 2]);
    let weeks = usize::from(pages[at + 3]);
    let weekdays = usize::from(pages[at + 4]);
    5 + 2 * (years + months + weeks + weekdays)
}
