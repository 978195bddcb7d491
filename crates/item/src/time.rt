// Times and spans, read at a bit: each answers its values with the bit after it, or a refusal.
ghost use Rattle.std.specs.Prelude.{◌≡◌, ◌<◌, ◌^◌};
ghost use Rattle.definition.specs.Field.{Layout, sheet_bits};
ghost use Rattle.definition.specs.Sheet.{fixed_layout, variable_layout, time, repeats_layout, span};
ghost use Rattle.answers.specs.Refusal.{read_as};
ghost use Rattle.item.specs.Answer.{as_time, as_repeats, as_span};

use answers::Read;
use field::width;

// Minutes, or an event and an offset.
#[derive(Clone, Copy, Debug, PartialEq, Eq)]
pub enum Time {
    Fixed(u64),
    Variable { event: u64, offset: u64 },
}

// A span's start and end, `open_end`, and after how many minutes it repeats, if it does.
#[derive(Clone, Copy, Debug, PartialEq, Eq)]
pub struct Span {
    pub start: Time,
    pub end: Time,
    pub open_end: bool,
    pub repeats: Option<u64>,
}

// Tag 0: "12 bits of minutes (0 to 2880)".
pub fn fixed_time_at(sheet: &[u8], at: usize) -> Read<Time>
    requires { at < 2 ^ 31 }
    ensures { read_as as_time result ≡ fixed_layout.read (sheet_bits sheet.now) at }
{
    let (minutes, next) = field::minutes_at(sheet, at)?;
    Ok((Time::Fixed(minutes), next))
}

// Tag 1: "event 2, offset 16 two's complement".
pub fn variable_time_at(sheet: &[u8], at: usize) -> Read<Time>
    requires { at < 2 ^ 31 }
    ensures { read_as as_time result ≡ variable_layout.read (sheet_bits sheet.now) at }
{
    let (event, after_event) = field::take_at(sheet, at, width::EVENT)?;
    let (offset, next) = field::take_at(sheet, after_event, width::OFFSET)?;
    Ok((Time::Variable { event, offset }, next))
}

// "A time is tag 0 .. or tag 1".
pub fn time_at(sheet: &[u8], at: usize) -> Read<Time>
    requires { at < 2 ^ 30 }
    ensures { read_as as_time result ≡ time.read (sheet_bits sheet.now) at }
{
    let (tag, body) = field::take_at(sheet, at, width::FLAG)?;
    match tag {
        0 => fixed_time_at(sheet, body),
        _ => variable_time_at(sheet, body),
    }
}

// "repeats flag 1 and, if it is set, 12 bits of minutes".
fn repeats_at(sheet: &[u8], at: usize) -> Read<Option<u64>>
    requires { at < 2 ^ 31 }
    ensures { read_as as_repeats result ≡ repeats_layout.read (sheet_bits sheet.now) at }
{
    let (flag, body) = field::take_at(sheet, at, width::FLAG)?;
    if flag == 0 {
        return Ok((None, body));
    }
    let (minutes, next) = field::take_at(sheet, body, width::REPEATS)?;
    Ok((Some(minutes), next))
}

// "Span: start, end, `open_end` 1, repeats flag 1 and, if it is set, 12 bits of minutes."
pub fn span_at(sheet: &[u8], at: usize) -> Read<Span>
    requires { at < 2 ^ 29 }
    ensures { read_as as_span result ≡ span.read (sheet_bits sheet.now) at }
{
    let (start, after_start) = time_at(sheet, at)?;
    let (end, after_end) = time_at(sheet, after_start)?;
    let (open_end, after_open_end) = field::take_at(sheet, after_end, width::FLAG)?;
    let (repeats, next) = repeats_at(sheet, after_open_end)?;
    Ok((
        Span {
            start,
            end,
            open_end: open_end == 1,
            repeats,
        },
        next,
    ))
}
