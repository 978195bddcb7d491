// A box's day as words, and whether they are those of another day.
#![tactic(auto)]

mod scratch;

ghost use Rattle.std.specs.Prelude.{◌≡◌, eqb, length};
ghost use Rattle.laws.specs.Tests.{same_list};
ghost use Rattle.words.specs.Words.{part};
ghost use Rattle.tables.specs.Days.{box_words, Ready};

use scratch::fold_list;

// Writes the words of a box's day; answers how many there are.
pub fn fold_box(
    words: &mut [u64],
    states: &[u32],
    span_counts: &[u8],
    spans: &[u64],
    lists: &[u16],
    box_index: usize,
) -> usize
    requires { Ready states.now span_counts.now spans.now lists.now (length words.old) box_index }
    ensures { (part words.new 0 result
        ≡ box_words states.now span_counts.now spans.now lists.now box_index)
        × (result ≡ length (box_words states.now span_counts.now spans.now lists.now box_index)) }
{
    let count_at = box_index * tables::LIST_PLACES;
    let first = count_at + 1;
    let end = first + usize::from(lists[count_at]);
    fold_list(words, states, span_counts, spans, &lists[first..end], 4)
}

// Whether a box's day is another one. `other` is scratch for the box's words.
pub fn same_day(
    words: &[u64],
    other: &mut [u64],
    states: &[u32],
    span_counts: &[u8],
    spans: &[u64],
    lists: &[u16],
    box_index: usize,
) -> bool
    requires { Ready states.now span_counts.now spans.now lists.now (length other.old) box_index }
    ensures { result ≡ same_list eqb (box_words states.now span_counts.now spans.now lists.now box_index) words.now }
{
    let count = fold_box(other, states, span_counts, spans, lists, box_index);
    day_flat::same_words(&other[..count], words)
}
