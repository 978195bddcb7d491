// A whole sheet's frame: the mark and the rule count in front of the rules, and behind them rules that are copied and zero bits to the byte's end.
#![tactic(auto)]

ghost use Rattle.std.specs.Prelude.{◌≡◌, ◌++◌, ◌+◌, ◌*◌, ◌-◌, ◌≤◌, ◌<◌, ◌^◌, length};
ghost use Rattle.std.proofs.lemmas.List.Edits.{sets};
ghost use Rattle.definition.specs.Field.{Layout, bytes_for, sheet_bits};
ghost use Rattle.definition.specs.Sheet.{sheet_limits, opening};
ghost use Rattle.forms.specs.Form.{as_form};
ghost use Rattle.item_writer.specs.Written.{RoomFor, Wrote};
ghost use Rattle.sheet_writer.specs.Frame.{padding, between};

use forms::{Form, mark, mark_width, rule_count_width};
use item_writer::put::put;

// The mark of the form and the rule count; answers where the rules begin.
pub fn put_opening(form: Form, out: &mut [u8], count: u64) -> usize
    requires count_bound { count < 2 ^ (as_form form).rule_count }
    requires room_for { RoomFor (length out.old) 0 ((opening (as_form form) sheet_limits).write count) }
    ensures { Wrote out.old 0 ((opening (as_form form) sheet_limits).write count) out.new result }
{
    let count_at = put(out, 0, mark_width(form), mark(form));
    put(out, count_at, rule_count_width(form), count)
}

// "then zero bits to the byte's end": behind the rules, which end at a bit; answers how many bytes the sheet has.
pub fn put_padding(out: &mut [u8], at: usize) -> usize
    requires { (at ≤ 8 * length out.old) × (at < 2 ^ 61) }
    ensures { (result ≡ bytes_for at) × (sheet_bits out.new ≡ sets (sheet_bits out.old) at (padding at)) }
{
    let bytes = (at + 7) / 8;
    let width = bytes * 8 - at;
    let end = put(out, at, width, 0);
    end / 8
}

// "The rules left are copied bit by bit after them": a sheet's bits from a place to another, and the padding behind them.
pub fn put_left(sheet: &[u8], start: usize, end: usize, out: &mut [u8], at: usize)
    requires start_le_end { (start ≤ end) × (end ≤ 8 * length sheet.now) × (end < 2 ^ 32) }
    requires start_bound { (at + (end - start) ≤ 8 * length out.old) × (at < 2 ^ 60) }
    ensures { Wrote out.old at (between sheet.now start end ++ padding (at + (end - start))) out.new (8 * bytes_for (at + (end - start))) }
{
    let count = end - start;
    writer::copy_bits(sheet, start, count, out, at);
    put_padding(out, at + count);
}
