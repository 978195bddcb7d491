// Writes the spans of the rules that a list names, each with its state, out of the rules' tables.
ghost use Rattle.std.specs.Prelude.{◌≡◌, ◌*◌, ◌≤◌, length};
ghost use Rattle.std.proofs.lemmas.List.Edits.{sets};
ghost use Rattle.canonical_time.specs.Flatten.{states_from, spans_from};
ghost use Rattle.tables.specs.Days.{Tables};

// Writes the spans of the rules that the list names, with their states; answers how many there are.
pub fn flatten(
    span_states: &mut [u32],
    span_codes: &mut [u64],
    states: &[u32],
    span_counts: &[u8],
    spans: &[u64],
    list: &[u16],
) -> usize
    requires tables { Tables states.now span_counts.now spans.now list.now }
    requires list_in_bounds { (16 * length list.now ≤ length span_states.old) × (16 * length list.now ≤ length span_codes.old) }
    ensures { (result ≡ length (states_from states.now span_counts.now list.now 0 (length list.now)))
        × (span_states.new ≡ sets span_states.old 0 (states_from states.now span_counts.now list.now 0 (length list.now)))
        × (span_codes.new ≡ sets span_codes.old 0 (spans_from span_counts.now spans.now list.now 0 (length list.now)))
        × (result ≤ 16 * length list.now) }
{
    let mut place: usize = 0;
    for number in list {
        let rule = usize::from(*number);
        let first = rule * 16;
        let own = &spans[first..first + usize::from(span_counts[rule])];
        let end = place + own.len();
        span_states[place..end].fill(states[rule]);
        span_codes[place..end].copy_from_slice(own);
        place = end;
    }
    place
}
