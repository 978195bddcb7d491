// Numbers the days of the lists in the store: each list's day has the number of the first list that has it, and the empty day has 0. A list is
// folded once when it is numbered, and again only to be compared with a later list whose day has the same hash. `words` is room for its day,
// `other` for the one that it is compared with.
#![tactic(auto)]

mod short;

ghost use Rattle.std.specs.Prelude.{◌≡◌, suc, length};
ghost use Rattle.tables.specs.Days.{box_words, number_words};
ghost use Rattle.tables.specs.Sizes.{day_room};
ghost use Rattle.day_memory.specs.Days.{DaysHashed};
ghost use Rattle.number_lists.specs.Numbered.{AllReady, NumberingRoom, DaysNumbered, DayAt};
ghost use Rattle.number_lists.specs.Short.{AllShort};

use box_day::fold_box;
use buffers::{FEW_WORDS, WORDS, zeros};
use day_flat::class::day_class;
use day_flat::fingerprint;
use day_memory::find_day;
use short::all_short;

// A list's day: its hash, its number and its class.
#[derive(Clone, Copy)]
struct ListDay {
    hash: u16,
    number: usize,
    class: u8,
}

// The day of a list, of which the lists before have these hashes.
fn day_at(
    words: &mut [u64],
    other: &mut [u64],
    states: &[u32],
    span_counts: &[u8],
    spans: &[u64],
    lists: &[u16],
    hashes: &[u16],
) -> ListDay
    requires all_ready { AllReady states.now span_counts.now spans.now lists.now (length words.old) (suc (length hashes.now))
        × (length other.old ≡ length words.old) }
    requires hashed { DaysHashed (box_words states.now span_counts.now spans.now lists.now) hashes.now (length hashes.now) }
    ensures { DayAt (box_words states.now span_counts.now spans.now lists.now) (length hashes.now) result }
{
    let word_count = fold_box(words, states, span_counts, spans, lists, hashes.len());
    let day = &words[..word_count];
    let hash = (fingerprint(day) % 65536) as u16;
    let number = find_day(day, other, states, span_counts, spans, lists, hashes, hash);
    ListDay {
        hash,
        number,
        class: day_class(day),
    }
}

// Numbers the days of the first `used` lists, in the words that are lent.
fn number_in(
    words: &mut [u64],
    other: &mut [u64],
    states: &[u32],
    span_counts: &[u8],
    spans: &[u64],
    lists: &[u16],
    used: usize,
    hashes: &mut [u16],
    numbers: &mut [u16],
    classes: &mut [u8],
)
    requires all_ready { AllReady states.now span_counts.now spans.now lists.now (length words.old) used × (length other.old ≡ length words.old) }
    requires numbering_room { NumberingRoom (length hashes.old) (length numbers.old) (length classes.old) used }
    ensures { DaysNumbered (number_words states.now span_counts.now spans.now lists.now)
        numbers.new classes.new (suc used) }
{
    numbers[0] = 0;
    classes[0] = 0;
    for place in 0..used {
        let day = day_at(
            words,
            other,
            states,
            span_counts,
            spans,
            lists,
            &hashes[..place],
        );
        hashes[place] = day.hash;
        numbers[place + 1] = day.number as u16;
        // Where a list before has the day, its class stands there already, and is the same.
        classes[day.number] = day.class;
    }
}

// Where no list has more than 4 rules, few words will do: there are fewer to clear.
fn number_short(
    states: &[u32],
    span_counts: &[u8],
    spans: &[u64],
    lists: &[u16],
    used: usize,
    hashes: &mut [u16],
    numbers: &mut [u16],
    classes: &mut [u8],
)
    requires all_ready { AllReady states.now span_counts.now spans.now lists.now day_room used × AllShort lists.now used }
    requires numbering_room { NumberingRoom (length hashes.old) (length numbers.old) (length classes.old) used }
    ensures { DaysNumbered (number_words states.now span_counts.now spans.now lists.now)
        numbers.new classes.new (suc used) }
{
    let mut words: [u64; FEW_WORDS] = zeros();
    let mut other: [u64; FEW_WORDS] = zeros();
    number_in(
        &mut words,
        &mut other,
        states,
        span_counts,
        spans,
        lists,
        used,
        hashes,
        numbers,
        classes,
    );
}

// Numbers the days of the first `used` lists: `numbers` has the number of each list's day, at the list's number, and `classes` the class of each
// day, at the day's. The hashes are scratch, one for each list.
pub fn number_lists(
    states: &[u32],
    span_counts: &[u8],
    spans: &[u64],
    lists: &[u16],
    used: usize,
    hashes: &mut [u16],
    numbers: &mut [u16],
    classes: &mut [u8],
)
    requires all_ready { AllReady states.now span_counts.now spans.now lists.now day_room used }
    requires numbering_room { NumberingRoom (length hashes.old) (length numbers.old) (length classes.old) used }
    ensures { DaysNumbered (number_words states.now span_counts.now spans.now lists.now)
        numbers.new classes.new (suc used) }
{
    if all_short(lists, used) {
        number_short(
            states,
            span_counts,
            spans,
            lists,
            used,
            hashes,
            numbers,
            classes,
        );
        return;
    }
    let mut words: [u64; WORDS] = zeros();
    let mut other: [u64; WORDS] = zeros();
    number_in(
        &mut words,
        &mut other,
        states,
        span_counts,
        spans,
        lists,
        used,
        hashes,
        numbers,
        classes,
    );
}
