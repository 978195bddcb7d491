// A whole rule as text: what stands before it, its days, its spans, kind and comment.
ghost use Rattle.std.specs.Prelude.{◌≡◌, ◌&&◌, not, ◌+◌, ◌≤◌, ◌<◌, ◌^◌};
ghost use Rattle.definition.specs.Field.{sheet_bits};
ghost use Rattle.definition.specs.Rule.{operator_of};
ghost use Rattle.definition.specs.Point.{is_normal};
ghost use Rattle.definition.specs.Show.{wordless};
ghost use Rattle.forms.specs.Form.{as_form};
ghost use Rattle.sheet.specs.Begin.{rule_read_at, Readable};
ghost use Rattle.sheet.specs.Head.{AllAtMost};
ghost use Rattle.text.specs.Put.{Put, Within};
ghost use Rattle.rule_text.specs.Shows.{Shows};
ghost use Rattle.rule_text.specs.Rule.{days_told, body_text, start_text, shown_text, lacks_words, Tells};

use crate::row::{show_days_of, show_row};
use crate::shown::Shown;
use forms::{Form, title_width};
use item::sort::Sort;
use item_text::state::{put_before, put_state};
use sheet::rule::{Counts, counts_at, title_at};

// The place after a rule's text; and whether the rule has no words.
#[derive(Clone, Copy)]
pub struct Told {
    pub to: usize,
    pub wordless: bool,
}

// "days in the order years, months, week numbers, weekdays".
fn show_days(sheet: &[u8], at: usize, counts: Counts, out: &mut [u8], place: usize) -> Shown
    requires at_bound { (at < 2 ^ 27) × AllAtMost 16 counts }
    requires within { Within place (days_told counts.years counts.monthdays counts.weeks counts.weekdays (sheet_bits sheet.now) at).text }
    ensures { Shows (days_told counts.years counts.monthdays counts.weeks counts.weekdays (sheet_bits sheet.now) at) out.old place result out.new }
{
    let first = show_days_of(sheet, at, Sort::Years, counts.years, out, place);
    let second = show_days_of(
        sheet,
        first.at,
        Sort::Monthdays,
        counts.monthdays,
        out,
        first.to,
    );
    let third = show_days_of(sheet, second.at, Sort::Weeks, counts.weeks, out, second.to);
    let fourth = show_days_of(
        sheet,
        third.at,
        Sort::Weekdays,
        counts.weekdays,
        out,
        third.to,
    );
    Shown {
        at: fourth.at,
        to: fourth.to,
        wordless: first.wordless | (second.wordless | (third.wordless | fourth.wordless)),
    }
}

// The days and the spans of the rule at a bit. "a rule with 0 spans" has no words. The counts were read before, so the first return is never taken.
fn show_body(form: Form, sheet: &[u8], at: usize, out: &mut [u8], place: usize) -> Told
    requires readable { Readable (as_form form) (sheet_bits sheet.now) at }
    requires at_bound { (at < 2 ^ 25) × Within place (body_text (rule_read_at (as_form form) (sheet_bits sheet.now) at)) }
    ensures { Tells (body_text (rule_read_at (as_form form) (sheet_bits sheet.now) at)) (wordless (rule_read_at (as_form form) (sheet_bits sheet.now) at)) out.old place result out.new }
{
    let Ok((counts, items)) = counts_at(form, sheet, at + title_width(form)) else {
        return Told {
            to: place,
            wordless: true,
        };
    };
    let days = show_days(sheet, items, counts, out, place);
    let times = show_row(sheet, days.at, Sort::Spans, counts.spans, out, days.to);
    Told {
        to: times.to,
        wordless: days.wordless | (times.wordless | (counts.spans == 0)),
    }
}

// "Nothing stands before the first rule".
fn put_start(out: &mut [u8], place: usize, first: bool, operator: u64) -> usize
    requires { Within place (start_text first (operator_of operator)) }
    ensures { Put out.old place (start_text first (operator_of operator)) result out.new }
{
    if first {
        return place;
    }
    put_before(out, place, operator)
}

// "a first rule that isn't Normal".
fn begins_wrong(first: bool, operator: u64) -> bool
    ensures { result ≡ first && not (is_normal (operator_of operator)) }
{
    first && operator != 0
}

// The rule at a bit, the first one or a later one. Its title was read before, so the first return is never taken.
pub fn show_rule(
    form: Form,
    sheet: &[u8],
    at: usize,
    first: bool,
    out: &mut [u8],
    place: usize,
) -> Told
    requires readable { Readable (as_form form) (sheet_bits sheet.now) at }
    requires at_bound { (at < 2 ^ 25) × Within place (shown_text first (rule_read_at (as_form form) (sheet_bits sheet.now) at)) }
    ensures { Tells (shown_text first (rule_read_at (as_form form) (sheet_bits sheet.now) at)) (lacks_words first (rule_read_at (as_form form) (sheet_bits sheet.now) at))
        out.old place result out.new }
{
    let Ok((title, _)) = title_at(form, sheet, at) else {
        return Told {
            to: place,
            wordless: true,
        };
    };
    let start = put_start(out, place, first, title.operator);
    let body = show_body(form, sheet, at, out, start);
    Told {
        to: put_state(out, body.to, title.kind, title.comment),
        wordless: begins_wrong(first, title.operator) | body.wordless,
    }
}
