// Looks for the day of a list among the days of the lists before: where the hash is the same, that list is folded again and the words are
// compared.
#![tactic(auto)]

ghost use Rattle.std.specs.Prelude.{◌≡◌, ℕ, suc, ◌<◌, length};
ghost use Rattle.tables.specs.Days.{box_words, Ready, number_words};
ghost use Rattle.day_memory.specs.Days.{FirstSame, hash_of, DaysHashed};

use box_day::same_day;

// The number of the day of a list, whose words stand in `words`: that of the first list that has it, this one's own where no list before has it, and 0
// where there are no words. `hashes` has the hash of the day of each list before.
pub fn find_day(
    words: &[u64],
    other: &mut [u64],
    states: &[u32],
    span_counts: &[u8],
    spans: &[u64],
    lists: &[u16],
    hashes: &[u16],
    day_hash: u16,
) -> usize
    requires by_index { (i : ℕ) → i < length hashes.now → Ready states.now span_counts.now spans.now lists.now (length other.old) i }
    requires words_value { (words.now ≡ box_words states.now span_counts.now spans.now lists.now (length hashes.now))
        × (day_hash ≡ hash_of (box_words states.now span_counts.now spans.now lists.now (length hashes.now)))
        × DaysHashed (box_words states.now span_counts.now spans.now lists.now) hashes.now (length hashes.now) }
    ensures { FirstSame (number_words states.now span_counts.now spans.now lists.now)
        (box_words states.now span_counts.now spans.now lists.now (length hashes.now)) (suc (length hashes.now)) result }
{
    if words.is_empty() {
        return 0;
    }
    for (before, hash) in hashes.iter().enumerate() {
        if *hash == day_hash && same_day(words, other, states, span_counts, spans, lists, before) {
            return before + 1;
        }
    }
    hashes.len() + 1
}
