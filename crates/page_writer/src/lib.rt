// Measures and writes pages, one after the other: a page's rules are those of its day over its items. A page is a row of numbers: the day's
// number, four counts of items by sorts, and the items' ends; pages stand one behind the other. A day's number is one more than the number of a
// list that has the day; its words come from the book of days, or the list is folded again where the book had no room for them.
#![tactic(auto)]

pub mod paged;
pub mod short;

ghost use Rattle.std.specs.Prelude.{◌≡◌, ◌*◌, ◌≤◌, ◌<◌, ◌^◌, length};
ghost use Rattle.laws.specs.Lists.{any_of};
ghost use Rattle.definition.specs.Fold.{many_items};
ghost use Rattle.forms.specs.Form.{as_form};
ghost use Rattle.item_writer.specs.Written.{RoomFor, Wrote};
ghost use Rattle.day_writer.specs.Rules.{Countable, rules_bits};
ghost use Rattle.day_book.specs.Book.{Open};
ghost use Rattle.tables.specs.Pages.{page_size};
ghost use Rattle.page_writer.specs.Paged.{day_words, rules_of_page, rules_of_pages, PageReady, PagesReady};

use crate::paged::PagedRules;
use day_book::fetch;
use day_writer::{measure_day, write_day};
use forms::Form;
use tables::page::page_size;

// How many rules pages stand for, how many bits they take, whether one of them has more items of a sort than the form can count; and how much of the
// book is filled.
#[derive(Clone, Copy)]
pub struct Measured {
    pub rules: usize,
    pub bits: usize,
    pub past: bool,
    pub filled: usize,
}

// The place behind what was written, and how much of the book is filled.
#[derive(Clone, Copy)]
struct Placed {
    place: usize,
    filled: usize,
}

// The measure of a page.
fn measure_page(
    form: Form,
    book: &mut [u64],
    notes: &mut [u16],
    filled: usize,
    room: usize,
    paged: PagedRules,
    page: &[u16],
) -> Measured
    requires page_ready { PageReady (as_form form) paged page.now room }
    requires fact { Open (day_words paged) notes.old book.old room filled }
    ensures { (length (rules_of_page paged.entry page.now) ≡ result.rules)
        × (length (rules_bits (as_form form) (rules_of_page paged.entry page.now)) ≡ result.bits)
        × (any_of (many_items (as_form form)) (rules_of_page paged.entry page.now) ≡ result.past)
        × (result.rules ≤ 4096) × (result.bits ≤ 2 ^ 31)
        × Open (day_words paged.entry) notes.new book.new room result.filled }
{
    let day = fetch(
        book,
        notes,
        filled,
        room,
        paged.states,
        paged.span_counts,
        paged.spans,
        paged.lists,
        usize::from(page[0]),
    );
    let end = day.from + day.count;
    let measure = measure_day(form, &book[day.from..end], &page[1..5]);
    Measured {
        rules: measure.rules,
        bits: measure.bits,
        past: measure.past,
        filled: day.filled,
    }
}

// The measure of the pages, with their days in the book, as far as it has room.
pub fn measure_pages(
    form: Form,
    book: &mut [u64],
    notes: &mut [u16],
    room: usize,
    paged: PagedRules,
) -> Measured
    requires pages { PagesReady (as_form form) paged room }
    requires count_bound { paged.count < 2 ^ 32 }
    requires fact { Open (day_words paged) notes.old book.old room 0 }
    ensures { (length (rules_of_pages paged.entry) ≡ result.rules)
        × (length (rules_bits (as_form form) (rules_of_pages paged.entry)) ≡ result.bits)
        × (any_of (many_items (as_form form)) (rules_of_pages paged.entry) ≡ result.past)
        × (result.rules ≤ 4096 * paged.entry.count) × (result.bits ≤ 2 ^ 31 * paged.entry.count)
        × Open (day_words paged.entry) notes.new book.new room result.filled }
{
    let mut here: usize = 0;
    let mut rules: usize = 0;
    let mut bits: usize = 0;
    let mut past = false;
    let mut filled: usize = 0;
    for _page in 0..paged.count {
        let end = here + page_size(paged.pages, here);
        let page = measure_page(
            form,
            book,
            notes,
            filled,
            room,
            paged,
            &paged.pages[here..end],
        );
        rules += page.rules;
        bits += page.bits;
        past |= page.past;
        filled = page.filled;
        here = end;
    }
    Measured {
        rules,
        bits,
        past,
        filled,
    }
}

// Writes a page's rules; answers the place after them.
fn write_page(
    form: Form,
    out: &mut [u8],
    place: usize,
    book: &mut [u64],
    notes: &mut [u16],
    filled: usize,
    room: usize,
    paged: PagedRules,
    page: &[u16],
) -> Placed
    requires page_ready { PageReady (as_form form) paged page.now room × (length page.now ≡ page_size page.now 0) }
    requires fact { Open (day_words paged) notes.old book.old room filled }
    requires countable { Countable (as_form form) (rules_of_page paged page.now) }
    requires room_for { RoomFor (length out.old) place (rules_bits (as_form form) (rules_of_page paged page.now)) }
    ensures { Wrote out.old place (rules_bits (as_form form) (rules_of_page paged.entry page.now)) out.new result.place
        × Open (day_words paged.entry) notes.new book.new room result.filled }
{
    let day = fetch(
        book,
        notes,
        filled,
        room,
        paged.states,
        paged.span_counts,
        paged.spans,
        paged.lists,
        usize::from(page[0]),
    );
    let end = day.from + day.count;
    let next = write_day(
        form,
        out,
        place,
        &book[day.from..end],
        &page[5..],
        &page[1..5],
    );
    Placed {
        place: next,
        filled: day.filled,
    }
}

// Writes the rules of the pages; answers the place after them. The book has what measuring them left there.
pub fn write_pages(
    form: Form,
    out: &mut [u8],
    place: usize,
    book: &mut [u64],
    notes: &mut [u16],
    filled: usize,
    room: usize,
    paged: PagedRules,
) -> usize
    requires pages { PagesReady (as_form form) paged room }
    requires fact { Open (day_words paged) notes.old book.old room filled }
    requires countable { Countable (as_form form) (rules_of_pages paged) }
    requires room_for { RoomFor (length out.old) place (rules_bits (as_form form) (rules_of_pages paged)) }
    ensures { Wrote out.old place (rules_bits (as_form form) (rules_of_pages paged.entry)) out.new result }
{
    let mut here: usize = 0;
    let mut next = place;
    let mut full = filled;
    for _page in 0..paged.count {
        let end = here + page_size(paged.pages, here);
        let written = write_page(
            form,
            out,
            next,
            book,
            notes,
            full,
            room,
            paged,
            &paged.pages[here..end],
        );
        next = written.place;
        full = written.filled;
        here = end;
    }
    next
}
