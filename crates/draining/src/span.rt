// A rule's spans as numbers.
ghost use Rattle.std.specs.Prelude.{◌≡◌, ◌+◌, ◌*◌, ◌≤◌, ◌<◌, ◌^◌, length};
ghost use Rattle.std.proofs.lemmas.List.Edits.{sets};
ghost use Rattle.definition.specs.Field.{sheet_bits};
ghost use Rattle.definition.specs.Rule.{repeats_key};
ghost use Rattle.item.specs.Answer.{as_time, as_repeats};
ghost use Rattle.codes.specs.Number.{time_number};
ghost use Rattle.codes.specs.Carried.{CarriedTime};
ghost use Rattle.draining.specs.Span.{number_of, number_at, span_numbers, spans_stop};

use field::width;
use item::time::Time;

fn time_number(time: Time) -> u64
    requires { CarriedTime (as_time time) }
    ensures { result ≡ time_number (as_time time) }
{
    match time {
        Time::Fixed(minutes) => codes::fixed_time(minutes as u16),
        Time::Variable { event, offset } => codes::variable_time(event as u8, offset as u16),
    }
}

// Repeats as 0 for none, else one more than their minutes.
fn repeats_number(repeats: Option<u64>) -> u64
    requires { repeats_key (as_repeats repeats) < 8192 }
    ensures { result ≡ repeats_key (as_repeats repeats) }
{
    match repeats {
        Some(minutes) => minutes + 1,
        None => 0,
    }
}

// A span's number and the bit after it, read field by field.
fn number_fields(sheet: &[u8], at: usize) -> Option<(u64, usize)>
    requires { at < 2 ^ 29 }
    ensures { number_of result ≡ number_at (sheet_bits sheet.now) at }
{
    let (span, next) = item::time::span_at(sheet, at).ok()?;
    let first = time_number(span.start);
    let last = time_number(span.end);
    let open_end = u64::from(span.open_end);
    let number = codes::span(first, last, open_end, repeats_number(span.repeats));
    Some((number, next))
}

// A span without repeats between two fixed times is read at once where eight bytes are left, any other field by field.
fn number_at(sheet: &[u8], at: usize) -> Option<(u64, usize)>
    requires { at < 2 ^ 29 }
    ensures { number_of result ≡ number_at (sheet_bits sheet.now) at }
{
    if at / 8 + 8 <= sheet.len() {
        let bits = field::wide_at(sheet, at);
        if item::wide::simple_span(bits) {
            let first = codes::fixed_time(field::part(bits, 43, width::MINUTES) as u16);
            let last = codes::fixed_time(field::part(bits, 30, width::MINUTES) as u16);
            let number = codes::span(first, last, field::part(bits, 29, width::FLAG), 0);
            return Some((number, at + 28));
        }
    }
    number_fields(sheet, at)
}

// The numbers of some spans, one behind the other, up to the first that may reach tomorrow; whether there is one.
pub fn load_spans(sheet: &[u8], at: usize, count: u64, spans: &mut [u64], place: usize) -> bool
    requires { (at + count * 52 < 2 ^ 29) × (place + count ≤ length spans.old) }
    ensures { (result ≡ spans_stop count (sheet_bits sheet.now) at)
        × (spans.new ≡ sets spans.old place (span_numbers count (sheet_bits sheet.now) at)) }
{
    let mut from = at;
    for i in 0..count {
        let Some((number, next)) = number_at(sheet, from) else {
            return true;
        };
        if !codes::no_overlap_with_next_day(number) {
            return true;
        }
        spans[place + i as usize] = number;
        from = next;
    }
    false
}
