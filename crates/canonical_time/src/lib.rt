// From a list to a day, ported from canonical_time.rs: the simple spans up to the end of the first group's run paint; all other spans stay in
// groups.
#![tactic(auto)]

pub mod flatten;

ghost use Rattle.std.specs.Prelude.{◌≡◌, ◌+◌, ◌*◌, ◌≤◌, length};
ghost use Rattle.std.proofs.lemmas.List.Edits.{sets};
ghost use Rattle.definition.specs.Day.{day};
ghost use Rattle.tables.specs.Days.{Tables};
ghost use Rattle.day_flat.specs.Day.{flat, list_rules};

use day_group::groups;
use day_paint::{write_day, write_strokes};
use day_sweep::sweep_classes;
use flatten::flatten;

// The day of a list of rule numbers over tables, in its flat form; answers how many words it has. Five lent buffers are scratch:
// they need room by the list's length, may hold anything before, and what they hold after is left unsaid but for their lengths.
pub fn normalize_time_rules(
    out: &mut [u64],
    span_states: &mut [u32],
    span_codes: &mut [u64],
    strokes: &mut [u64],
    minute_cuts: &mut [u64],
    interval_states: &mut [u64],
    states: &[u32],
    span_counts: &[u8],
    spans: &[u64],
    list: &[u16],
) -> usize
    requires tables { Tables states.now span_counts.now spans.now list.now }
    requires list_len_bound { (length list.now ≤ 1024) × (16 * length list.now ≤ length span_states.old) × (16 * length list.now ≤ length span_codes.old)
        × (32 * length list.now + 2 ≤ length strokes.old) × (32 * length list.now + 2 ≤ length minute_cuts.old)
        × (32 * length list.now + 2 ≤ length interval_states.old) }
    ensures { (out.new ≡ sets out.old 0
        (flat (day (list_rules states.now span_counts.now spans.now list.now 0 (length list.now)))))
        × (result ≡ length (flat (day (list_rules states.now span_counts.now spans.now list.now 0 (length list.now))))) }
{
    let n = flatten(span_states, span_codes, states, span_counts, spans, list);
    let listed_states = &span_states[..n];
    let listed_spans = &span_codes[..n];
    let k = write_strokes(strokes, listed_states, listed_spans);
    let m = write_day(minute_cuts, interval_states, &strokes[..k]);
    // From here on the pieces say all that the strokes said, and `strokes` is used again, as a buffer: here it takes the chain of the intervals.
    let at = sweep_classes(out, strokes, minute_cuts, &mut interval_states[..m]);
    // Where every span is a stroke, there is no group.
    if k == n {
        return at;
    }
    // And here it takes the spans of a group.
    groups(out, at, strokes, listed_states, listed_spans)
}
