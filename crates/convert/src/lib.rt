// The conversion of a checked sheet to the other form (02, M-106): "Stored sheets move to form 2 and back". Mark, counts and comments are written anew,
// and every other bit is copied.
#![tactic(auto)]

pub mod rule;

ghost use Rattle.std.specs.Prelude.{◌≡◌, ◌+◌, ◌*◌, ◌≤◌, ◌<◌, ◌^◌, length, MatchOption};
ghost use mathlib.Core.List.{List, flat_map};
ghost use Rattle.std.proofs.Math.Option.{none, some};
ghost use Rattle.definition.specs.Field.{Layout, sheet_bits};
ghost use Rattle.definition.specs.Rule.{Rule};
ghost use Rattle.definition.specs.Sheet.{sheet_limits, opening_width, head_width, rule};
ghost use Rattle.definition.specs.Fold.{buffer, written_numbers};
ghost use Rattle.definition.specs.Forms.{first_long_comment, convert_rules, other};
ghost use Rattle.forms.specs.Form.{as_form};
ghost use Rattle.sheet.specs.Rules.{rules_at, AllBegin};
ghost use Rattle.sheet.specs.Parts.{SheetRead, Readings};
ghost use Rattle.item_writer.specs.Written.{RoomFor, Wrote};
ghost use Rattle.answers.specs.Numbers.{write_numbers};
ghost use Rattle.tables.specs.Rules.{AllCommented};

use answers::{Reason, Refusal, Written};
use forms::{Form, head_width, opening_width, other_form};
use limits::lacks_room;

// The first rule whose comment has no room in the form `to`.
fn first_long_comment(
    form: Form,
    to: Form,
    sheet: &[u8],
    begins: &[usize],
    count: usize,
) -> Option<usize>
    requires { AllBegin (as_form form) (sheet_bits sheet.now) begins.now count × (count ≤ length begins.now) }
    ensures { MatchOption result (first_long_comment (as_form to) (rules_at (as_form form) (sheet_bits sheet.now) begins.now count) ≡ none)
        (λ rule. first_long_comment (as_form to) (rules_at (as_form form) (sheet_bits sheet.now) begins.now count) ≡ some rule) }
{
    for rule in 0..count {
        if rule::has_long_comment(form, to, sheet, begins[rule]) {
            return Some(rule);
        }
    }
    None
}

// How many bits so many rules take in the form `to` that end at a bit in `form`.
fn moved_bits(form: Form, to: Form, count: usize, end: usize) -> usize
    requires { (count ≤ sheet_limits.rules) × (opening_width (as_form form) + count * head_width (as_form form) ≤ end) × (end < 2 ^ 25) }
    ensures { (result + opening_width (as_form form) + count * head_width (as_form form) ≡ end + opening_width (as_form to) + count * head_width (as_form to)) × (result < 2 ^ 26) }
{
    let copied = end - opening_width(form) - count * head_width(form);
    opening_width(to) + count * head_width(to) + copied
}

// Rules from the sheet, in the form `to`, one behind the other; answers the place after them.
fn move_rules(
    form: Form,
    to: Form,
    sheet: &[u8],
    begins: &[usize],
    count: usize,
    end: usize,
    out: &mut [u8],
    place: usize,
) -> usize
    requires { (rs : List Rule) × SheetRead (as_form form) sheet.now begins.now rs end × (count ≡ length rs) × AllCommented (as_form to) rs
        × RoomFor (length out.old) place (flat_map (rule (as_form to) sheet_limits).write rs) }
    ensures { (rs : List Rule) → SheetRead (as_form form) sheet.now begins.now rs end → count ≡ length rs
        → Wrote out.old place (flat_map (rule (as_form to) sheet_limits).write rs) out.new result }
{
    let mut next = place;
    for rule in 0..count {
        let behind = rule::rule_end(begins, rule, count, end);
        next = rule::move_rule(form, to, sheet, begins[rule], behind, out, next);
    }
    next
}

// The rules of a checked sheet, `count` of them up to the bit `end`, in the other form: 12 where a comment has no room in it, then 7.
pub fn convert_rules(
    form: Form,
    sheet: &[u8],
    begins: &[usize],
    count: usize,
    end: usize,
    out: &mut [u8],
) -> Written
    requires { Readings (as_form form) sheet.now begins.now count end }
    ensures { (rs : List Rule) → SheetRead (as_form form) sheet.now begins.now rs end → count ≡ length rs
        → (write_numbers result ≡ written_numbers (convert_rules (other (as_form form)) sheet_limits (length out.old) rs))
        × (out.new ≡ buffer (convert_rules (other (as_form form)) sheet_limits (length out.old) rs).result out.old) }
{
    let to = other_form(form);
    if let Some(place) = first_long_comment(form, to, sheet, begins, count) {
        return Written::refused(Refusal {
            reason: Reason::LongComment,
            place,
        });
    }
    let bytes = (moved_bits(form, to, count, end) + 7) / 8;
    if lacks_room(out.len(), bytes) {
        return Written::refused(Refusal {
            reason: Reason::NoRoom,
            place: bytes,
        });
    }
    let first = sheet_writer::put_opening(to, out, count as u64);
    let behind = move_rules(form, to, sheet, begins, count, end, out, first);
    sheet_writer::put_padding(out, behind);
    Written {
        code: 0,
        bytes,
        place: 0,
    }
}
