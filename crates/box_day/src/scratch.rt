// A list folded in scratch of its own, by how many rules it has.
ghost use Rattle.std.specs.Prelude.{◌*◌, ◌+◌, ◌≤◌, length};
ghost use Rattle.tables.specs.Sizes.{list_limit};
ghost use Rattle.tables.specs.Days.{Tables};
ghost use Rattle.box_day.specs.Boxes.{Folded};

use buffers::{ENDS, FEW_ENDS, FEW_SPANS, SOME_ENDS, SOME_SPANS, SPANS, zeros};

// Folds a list in scratch for N spans, and for M ends of them and of the day.
fn fold_in<const N: usize, const M: usize>(
    words: &mut [u64],
    states: &[u32],
    span_counts: &[u8],
    spans: &[u64],
    list: &[u16],
) -> usize
    requires tables { Tables states.now span_counts.now spans.now list.now × (length list.now ≤ list_limit) }
    requires room { (16 * length list.now ≤ N) × (N ≤ SPANS) × (32 * length list.now + 2 ≤ M) × (M ≤ ENDS) }
    ensures { Folded states.now span_counts.now spans.now list.now words.old words.new result }
{
    let mut span_states: [u32; N] = zeros();
    let mut span_codes: [u64; N] = zeros();
    let mut strokes: [u64; M] = zeros();
    let mut minute_cuts: [u64; M] = zeros();
    let mut interval_states: [u64; M] = zeros();
    canonical_time::normalize_time_rules(
        words,
        &mut span_states,
        &mut span_codes,
        &mut strokes,
        &mut minute_cuts,
        &mut interval_states,
        states,
        span_counts,
        spans,
        list,
    )
}

// Folds a list in scratch for `room` rules or, where it has more, in larger ones: clearing that of 32 rules would take longer than the fold of a few.
// The choice calls itself for the next larger scratch: the compiler puts no function with large arrays into one that calls itself, so that a short list
// has small arrays on its stack only.
pub fn fold_list(
    words: &mut [u64],
    states: &[u32],
    span_counts: &[u8],
    spans: &[u64],
    list: &[u16],
    room: usize,
) -> usize
    requires tables { Tables states.now span_counts.now spans.now list.now × (length list.now ≤ list_limit) }
    requires le_room { 1 ≤ room }
    ensures { Folded states.now span_counts.now spans.now list.now words.old words.new result }
{
    if room < list.len() {
        return fold_list(words, states, span_counts, spans, list, 3 * room);
    }
    if list.len() <= 4 {
        return fold_in::<FEW_SPANS, FEW_ENDS>(words, states, span_counts, spans, list);
    }
    if list.len() <= 12 {
        return fold_in::<SOME_SPANS, SOME_ENDS>(words, states, span_counts, spans, list);
    }
    fold_in::<SPANS, ENDS>(words, states, span_counts, spans, list)
}
