// Writes painted states, class by class: each state once, with all its runs of minutes, after which its intervals are emptied. In chain.rt, the
// chain by which the intervals of a state are found.
#![tactic(auto)]

pub mod chain;

ghost use Rattle.std.specs.Prelude.{◌≡◌, ℕ, ◌+◌, ◌*◌, ◌-◌, ◌<◌, ◌≤◌, length, get_or};
ghost use Rattle.std.proofs.lemmas.List.Edits.{sets};
ghost use Rattle.codes.specs.Number.{closed_number};
ghost use Rattle.words.specs.Words.{entry_words};
ghost use Rattle.day_sweep.specs.Row.{time_limit, interval_limit, entry_limit, word_limit, run_up_to, runs_from, clear_from, class_words, class_left, classes_words, all_closed};
ghost use Rattle.day_sweep.specs.Chain.{Chained};

use chain::{bare_heads, link, next_of};
use codes::{CLOSED, span, state_class};
use words::{put, write_head};

// Writes the run from a up to c, where there is one; answers the place after it.
fn put_run(out: &mut [u64], at: usize, a: u64, c: u64) -> usize
    requires { (at < word_limit) × (a < time_limit) × (c < time_limit) }
    ensures { (out.new ≡ sets out.old at (run_up_to a c)) × (result ≡ at + length (run_up_to a c)) × (result ≤ at + 1) }
{
    if a < c {
        put(out, at, span(a, c, 0, 0));
        return at + 1;
    }
    at
}

// Empties the intervals of a state from i on, as far as they follow one another; answers the interval after them.
fn clear_run(interval_states: &mut [u64], s: u64, i: usize) -> usize
    requires { i ≤ length interval_states.old }
    ensures { (i ≤ result) × (result ≤ length interval_states.old) × (interval_states.new ≡ clear_from interval_states.old s i (result - i))
        × ((k : ℕ) → i ≤ k → k < result → get_or interval_states.old k 0 ≡ s)
        × (result < length interval_states.old → get_or interval_states.old result 0 ≡ s → ⊥) }
{
    for next in i..interval_states.len() {
        if interval_states[next] != s {
            return next;
        }
        interval_states[next] = CLOSED;
    }
    interval_states.len()
}

// Writes the runs of a state, whose first interval is j, and empties its intervals; answers the place after them.
fn take_runs(
    out: &mut [u64],
    at: usize,
    chain: &[u64],
    minute_cuts: &[u64],
    interval_states: &mut [u64],
    s: u64,
    j: usize,
) -> usize
    requires j_in_bounds { (j < length interval_states.old) × (at + length interval_states.old < word_limit)
        × (length interval_states.old ≤ length chain.now) × (length interval_states.old < length minute_cuts.now) }
    requires by_index { (k : ℕ) → k ≤ length interval_states.old → get_or minute_cuts.now k 0 < time_limit }
    requires j_value { (get_or interval_states.old j 0 ≡ s) × (s ≡ closed_number → ⊥) × Chained chain.now interval_states.old (length interval_states.old) }
    ensures { (out.new
        ≡ sets out.old at (runs_from minute_cuts.now interval_states.old s (get_or minute_cuts.now j 0) j (length interval_states.old - j)))
        × (result ≡ at + length (runs_from minute_cuts.now interval_states.old s (get_or minute_cuts.now j 0) j (length interval_states.old - j)))
        × (interval_states.new ≡ clear_from interval_states.old s j (length interval_states.old - j)) × (result ≤ at + length interval_states.old) }
{
    let mut i = j;
    let mut place = at;
    // Each turn takes a run and goes on by the chain, so no `for` counts `i`.
    while i < interval_states.len() {
        let end = clear_run(interval_states, s, i);
        place = put_run(out, place, minute_cuts[i], minute_cuts[end]);
        i = next_of(interval_states, chain, s, end - 1);
    }
    place
}

// Writes the entry of a state, whose first interval is i, and empties its intervals; answers the place after it.
fn take_state(
    out: &mut [u64],
    at: usize,
    chain: &[u64],
    minute_cuts: &[u64],
    interval_states: &mut [u64],
    s: u64,
    i: usize,
) -> usize
    requires i_in_bounds { (i < length interval_states.old) × (at + 2 + length interval_states.old < word_limit)
        × (length interval_states.old ≤ length chain.now) × (length interval_states.old < length minute_cuts.now) }
    requires by_index { (k : ℕ) → k ≤ length interval_states.old → get_or minute_cuts.now k 0 < time_limit }
    requires i_value { (get_or interval_states.old i 0 ≡ s) × (s ≡ closed_number → ⊥) × Chained chain.now interval_states.old (length interval_states.old) }
    ensures { (out.new
        ≡ sets out.old at (entry_words s (runs_from minute_cuts.now interval_states.old s (get_or minute_cuts.now i 0) i (length interval_states.old - i))))
        × (result ≡ at + 2 + length (runs_from minute_cuts.now interval_states.old s (get_or minute_cuts.now i 0) i (length interval_states.old - i)))
        × (interval_states.new ≡ clear_from interval_states.old s i (length interval_states.old - i)) × (result ≤ at + 2 + length interval_states.old) }
{
    let next = take_runs(out, at + 2, chain, minute_cuts, interval_states, s, i);
    write_head(out, at, s, next - (at + 2));
    next
}

// Writes the entries of a class and empties their intervals; answers the place after them.
fn sweep_class(
    out: &mut [u64],
    at: usize,
    chain: &[u64],
    minute_cuts: &[u64],
    interval_states: &mut [u64],
    class: u8,
) -> usize
    requires le_class { (1 ≤ class) × (length interval_states.old ≤ interval_limit) × (at + length interval_states.old * entry_limit < word_limit) }
    requires in_bounds { (length interval_states.old ≤ length chain.now) × (length interval_states.old < length minute_cuts.now) }
    requires by_index { (k : ℕ) → k ≤ length interval_states.old → get_or minute_cuts.now k 0 < time_limit }
    requires chained { Chained chain.now interval_states.old (length interval_states.old) }
    ensures { (out.new ≡ sets out.old at (class_words minute_cuts.now class interval_states.old 0 (length interval_states.old)))
        × (result ≡ at + length (class_words minute_cuts.now class interval_states.old 0 (length interval_states.old)))
        × (interval_states.new ≡ class_left class interval_states.old 0 (length interval_states.old))
        × (result ≤ at + length interval_states.old * entry_limit) × Chained chain.now interval_states.new (length interval_states.old) }
{
    let mut place = at;
    for i in 0..interval_states.len() {
        let s = interval_states[i];
        if state_class(s) == class {
            place = take_state(out, place, chain, minute_cuts, interval_states, s, i);
        }
    }
    place
}

// Whether all intervals are plain Closed, as emptied ones are: then no class has words.
fn all_closed(interval_states: &[u64]) -> bool
    ensures { result ≡ all_closed interval_states.now 0 (length interval_states.now) }
{
    for state in interval_states {
        if *state != CLOSED {
            return false;
        }
    }
    true
}

// Writes the painted states, class by class, until no state is left; answers how many words they are. The intervals are chained.
fn sweep_chained(
    out: &mut [u64],
    chain: &[u64],
    minute_cuts: &[u64],
    interval_states: &mut [u64],
) -> usize
    requires in_bounds { (length interval_states.old < interval_limit) × (length interval_states.old ≤ length chain.now)
        × (length interval_states.old < length minute_cuts.now) }
    requires by_index { (k : ℕ) → k ≤ length interval_states.old → get_or minute_cuts.now k 0 < time_limit }
    requires chained { Chained chain.now interval_states.old (length interval_states.old) }
    ensures { (out.new ≡ sets out.old 0 (classes_words minute_cuts.now (length interval_states.old) 1 interval_states.old 5))
        × (result ≡ length (classes_words minute_cuts.now (length interval_states.old) 1 interval_states.old 5)) × (result < word_limit) }
{
    let mut place: usize = 0;
    for class in 1..6u8 {
        if all_closed(interval_states) {
            return place;
        }
        place = sweep_class(out, place, chain, minute_cuts, interval_states, class);
    }
    place
}

// Writes the painted states of a day's intervals, class by class; answers how many words they are. A buffer takes the chain.
pub fn sweep_classes(
    out: &mut [u64],
    buf: &mut [u64],
    minute_cuts: &[u64],
    interval_states: &mut [u64],
) -> usize
    requires in_bounds { (length interval_states.old < interval_limit) × (length interval_states.old < length buf.old)
        × (length interval_states.old < length minute_cuts.now) }
    requires by_index { (k : ℕ) → k ≤ length interval_states.old → get_or minute_cuts.now k 0 < time_limit }
    ensures { (out.new ≡ sets out.old 0 (classes_words minute_cuts.now (length interval_states.old) 1 interval_states.old 5))
        × (result ≡ length (classes_words minute_cuts.now (length interval_states.old) 1 interval_states.old 5)) × (result < word_limit) }
{
    let mut heads = bare_heads();
    link(buf, &mut heads, interval_states);
    sweep_chained(out, buf, minute_cuts, interval_states)
}
