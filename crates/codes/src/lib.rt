// Spans and states as numbers: the order of the spans' numbers is 01's order of spans, and a `match` on a state's number decides its class.
// Kinds and classes are numbers too: the code compares them, sorts by them and writes them to answers and sheets, and never branches on one
// elsewhere, so that an enum would only be turned back. What a sheet's title says is read by enums, in `title`.
#![tactic(auto, unfolding(crate::specs::Number::state_coded, crate::specs::Number::parts_number, crate::specs::Number::time_number))]

pub mod title;

ghost use Rattle.std.specs.Prelude.{◌≡◌, not, ◌+◌, ◌*◌, ◌<◌, ◌/◌, ◌%◌};
ghost use Rattle.definition.specs.Rule.{fixed, variable, kind_number};
ghost use Rattle.definition.specs.Day.{simple, state_class};
ghost use Rattle.definition.specs.Stop.{span_stops};
ghost use Rattle.codes.specs.Number.{state_coded, time_number, parts_number, span_at};

// A state is one number; this one is plain Closed.
pub const CLOSED: u64 = 1;

// ## Times

// The number of a fixed time.
pub fn fixed_time(minutes: u16) -> u64
    ensures { result ≡ time_number (fixed minutes) }
{
    u64::from(minutes)
}

// The number of a variable time; the offset is 16 bits, two's complement.
pub fn variable_time(event: u8, offset: u16) -> u64
    ensures { result ≡ time_number (variable event offset) }
{
    262144 + u64::from(event) * 65536 + (u64::from(offset) + 32768) % 65536
}

// ## Spans

// The number of a span from its parts: times, open_end as 0 or 1, repeats as 0 for none, else one more than their minutes.
pub fn span(start: u64, end: u64, open_end: u64, repeats: u64) -> u64
    requires { (start < 524288) × (end < 524288) × (open_end < 2) × (repeats < 8192) }
    ensures { result ≡ parts_number start end open_end repeats }
{
    ((start * 524288 + end) * 2 + open_end) * 8192 + repeats
}

pub fn start_of(span: u64) -> u64
    ensures { result ≡ span / 8589934592 }
{
    span / 8589934592
}

pub fn end_of(span: u64) -> u64
    ensures { result ≡ span / 16384 % 524288 }
{
    span / 16384 % 524288
}

// Whether a span paints its minutes: both times fixed, start < end ≤ 24:00, not `open_end`, no repeats.
pub fn is_simple(span: u64) -> bool
    ensures { result ≡ simple (span_at span) }
{
    let start = start_of(span);
    let end = end_of(span);
    span % 16384 == 0 && start < end && end <= 1440
}

// Whether the span can't overlap with the next day.
pub fn no_overlap_with_next_day(span: u64) -> bool
    ensures { result ≡ not (span_stops (span_at span)) }
{
    let start = start_of(span);
    let end = end_of(span);
    if start < 262144 {
        start < end && end <= 1440
    } else {
        end == 1440
    }
}

// ## States

// The class of a painted state: 1 Open plain, 2 Open commented, 3 Unknown plain, 4 Unknown commented, 5 Closed commented; 0 plain Closed.
pub fn state_class(state: u64) -> u8
    ensures { result ≡ state_class (state_coded state) }
{
    match state {
        0 => 1,
        CLOSED => 0,
        2 => 3,
        _ => match state % 3 {
            0 => 2,
            1 => 5,
            _ => 4,
        },
    }
}

// The kind of a state: 0 Open, 1 Closed, 2 Unknown.
pub fn kind_of(state: u64) -> u8
    ensures { result ≡ kind_number (state_coded state).kind }
{
    (state % 3) as u8
}

// The comment of a state.
pub fn comment_of(state: u64) -> u64
    ensures { result ≡ (state_coded state).comment }
{
    state / 3
}
