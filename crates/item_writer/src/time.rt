// Writes times and spans, from their numbers.
ghost use Rattle.std.specs.Prelude.{◌≡◌, true, length};
ghost use Rattle.definition.specs.Day.{simple};
ghost use Rattle.definition.specs.Field.{Layout};
ghost use Rattle.definition.specs.Sheet.{time, repeats_layout, span};
ghost use Rattle.codes.specs.Number.{time_at, repeats_at, span_at};
ghost use Rattle.item_writer.specs.Written.{RoomFor, Wrote};

use crate::put::{Fields, put};
use field::width;

// "A time is tag 0 and 12 bits of minutes (0 to 2880), or tag 1, event 2, offset 16 two's complement."
pub fn put_time(out: &mut [u8], at: usize, number: u64) -> usize
    requires number_value { time.fits (time_at number) ≡ true }
    requires room_for { RoomFor (length out.old) at (time.write (time_at number)) }
    ensures { Wrote out.old at (time.write (time_at number)) out.new result }
{
    if number < 262144 {
        let minutes = Fields::new(width::FLAG, 0).then(width::MINUTES, number);
        return minutes.put(out, at);
    }
    let event = Fields::new(width::FLAG, 1)
        .then(width::EVENT, (number - 262144) / 65536)
        .then(width::OFFSET, (number % 65536 + 32768) % 65536);
    event.put(out, at)
}

// "repeats flag 1 and, if it is set, 12 bits of minutes": 0 for none, else one more than the minutes.
fn put_repeats(out: &mut [u8], at: usize, number: u64) -> usize
    requires number_value { repeats_layout.fits (repeats_at number) ≡ true }
    requires room_for { RoomFor (length out.old) at (repeats_layout.write (repeats_at number)) }
    ensures { Wrote out.old at (repeats_layout.write (repeats_at number)) out.new result }
{
    if number == 0 {
        return put(out, at, width::FLAG, 0);
    }
    let repeats = Fields::new(width::FLAG, 1).then(width::REPEATS, number - 1);
    repeats.put(out, at)
}

// A span of two fixed times, not `open_end`, without repeats: no bit is set but those of the minutes.
fn put_simple_span(out: &mut [u8], at: usize, number: u64) -> usize
    requires number_value { simple (span_at number) ≡ true }
    requires room_for { RoomFor (length out.old) at (span.write (span_at number)) }
    ensures { Wrote out.old at (span.write (span_at number)) out.new result }
{
    let span = Fields::new(width::FLAG + width::MINUTES, codes::start_of(number))
        .then(width::FLAG + width::MINUTES, codes::end_of(number))
        .then(width::FLAG + width::FLAG, 0);
    span.put(out, at)
}

// "Span: start, end, `open_end` 1, repeats flag 1 and, if it is set, 12 bits of minutes."
pub fn put_span(out: &mut [u8], at: usize, number: u64) -> usize
    requires number_value { span.fits (span_at number) ≡ true }
    requires room_for { RoomFor (length out.old) at (span.write (span_at number)) }
    ensures { Wrote out.old at (span.write (span_at number)) out.new result }
{
    if codes::is_simple(number) {
        return put_simple_span(out, at, number);
    }
    let end_at = put_time(out, at, codes::start_of(number));
    let open_end_at = put_time(out, end_at, codes::end_of(number));
    let repeats_at = put(out, open_end_at, width::FLAG, number / 8192 % 2);
    put_repeats(out, repeats_at, number % 8192)
}
