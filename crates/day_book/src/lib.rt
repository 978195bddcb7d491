// The book of days: the words of days that were folded, one behind the other, so that a day on many pages is folded once. `notes` has two numbers for each
// day's number: where its words stand, and how many they are, none where the day isn't in the book. Behind what is filled there is always room for one
// day more: one that the book can't keep is folded there, and the next one over it.
#![tactic(auto)]

ghost use Rattle.std.specs.Prelude.{◌-◌, ◌≤◌, ◌<◌};
ghost use Rattle.tables.specs.Days.{Ready, number_words};
ghost use Rattle.day_book.specs.Book.{Open, Fetch};

use box_day::fold_box;

// Where a day's words stand, how many they are, and how much of the book is filled.
#[derive(Clone, Copy)]
pub struct Fetched {
    pub from: usize,
    pub count: usize,
    pub filled: usize,
}

// A day's words: from the book, or folded behind what is filled, and kept there if room for another day is left.
pub fn fetch(
    book: &mut [u64],
    notes: &mut [u16],
    filled: usize,
    room: usize,
    states: &[u32],
    span_counts: &[u8],
    spans: &[u64],
    lists: &[u16],
    number: usize,
) -> Fetched
    requires le_number { (1 ≤ number) × (number < 65536) × Ready states.now span_counts.now spans.now lists.now room (number - 1) }
    requires fact { Open (number_words states.now span_counts.now spans.now lists.now) notes.old book.old room filled }
    ensures { Fetch (number_words states.now span_counts.now spans.now lists.now)
        notes.new book.new room number result }
{
    let noted = 2 * number + 1;
    if noted < notes.len() && notes[noted] > 0 {
        return Fetched {
            from: usize::from(notes[noted - 1]),
            count: usize::from(notes[noted]),
            filled,
        };
    }
    let count = fold_box(
        &mut book[filled..],
        states,
        span_counts,
        spans,
        lists,
        number - 1,
    );
    let next = filled + count;
    if next + room <= book.len() && noted < notes.len() {
        notes[noted - 1] = filled as u16;
        notes[noted] = count as u16;
        return Fetched {
            from: filled,
            count,
            filled: next,
        };
    }
    Fetched {
        from: filled,
        count,
        filled,
    }
}
