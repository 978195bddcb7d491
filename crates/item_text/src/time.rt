// Times and spans as text.
ghost use Rattle.std.specs.Prelude.{◌≤◌};
ghost use Rattle.definition.specs.Text.{Text};
ghost use Rattle.definition.specs.Line.{clock};
ghost use Rattle.text.specs.Put.{Put, Within};
ghost use Rattle.item_text.specs.Time.{plain_span};

use text::{put_byte, put_two};

// "two-digit hours, minutes": 24:00 and 48:00 are never wrapped.
fn put_clock(out: &mut [u8], place: usize, minutes: u64) -> usize
    requires { (minutes ≤ 2880) × Within place (clock.write minutes) }
    ensures { Put out.old place (clock.write minutes) result out.new }
{
    let hours = put_two(out, place, minutes / 60);
    let colon = put_byte(out, hours, b':');
    put_two(out, colon, minutes % 60)
}

// "each as start, `-`, end, and `+` if `open_end`".
pub fn put_span(out: &mut [u8], place: usize, start: u64, end: u64, open_end: bool) -> usize
    requires { (start ≤ 2880) × (end ≤ 2880) × Within place (plain_span start end open_end) }
    ensures { Put out.old place (plain_span start end open_end) result out.new }
{
    let first = put_clock(out, place, start);
    let dash = put_byte(out, first, b'-');
    let last = put_clock(out, dash, end);
    if open_end {
        put_byte(out, last, b'+')
    } else {
        last
    }
}
