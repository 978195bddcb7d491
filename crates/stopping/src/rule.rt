// Why a rule stops: the first number, in 02's order, that applies to its operator or to any of its items.
ghost use Rattle.std.specs.Prelude.{◌≡◌, ◌+◌, ◌*◌, ◌≤◌, ◌<◌, ◌^◌};
ghost use Rattle.definition.specs.Field.{sheet_bits};
ghost use Rattle.definition.specs.Stop.{reason};
ghost use Rattle.forms.specs.Form.{as_form};
ghost use Rattle.item.specs.Sort.{number_of};
ghost use Rattle.sheet.specs.Begin.{rule_read_at, Readable};
ghost use Rattle.sheet.specs.Head.{AllAtMost};
ghost use Rattle.stopping.specs.Rule.{earlier, begun, row_reasoned, body_reason, parts_reason};

use crate::part::{Reasoned, reason_of_item};
use codes::title::is_fallback;
use forms::{Form, title_width};
use item::sort::Sort;
use sheet::rule::{Counts, counts_at, title_at};

// The one of two numbers that comes first in the order; 0 is none.
fn earlier(one: u64, other: u64) -> u64
    ensures { result ≡ earlier one other }
{
    if one == 0 {
        other
    } else if other == 0 || one <= other {
        one
    } else {
        other
    }
}

// Some items of a sort, one behind the other. All of them are asked: the first that stops need not have the first number.
fn row_reason(sheet: &[u8], start: usize, sort: Sort, count: u64) -> Reasoned
    requires { start + count * 52 < 2 ^ 29 }
    ensures { result ≡ row_reasoned (number_of sort) count (sheet_bits sheet.now) (begun start) }
{
    let mut found = Reasoned {
        reason: 0,
        at: start,
    };
    for i in 0..count {
        let item = reason_of_item(sheet, found.at, sort);
        found = Reasoned {
            reason: earlier(found.reason, item.reason),
            at: item.at,
        };
    }
    found
}

// The rows of items behind a rule's head. "2 time" comes before what stops in its days.
fn body_reason(sheet: &[u8], at: usize, counts: Counts) -> u64
    requires { (at < 2 ^ 27) × AllAtMost 16 counts }
    ensures { result ≡ body_reason counts.years counts.monthdays counts.weeks counts.weekdays counts.spans (sheet_bits sheet.now) at }
{
    let years = row_reason(sheet, at, Sort::Years, counts.years);
    let monthdays = row_reason(sheet, years.at, Sort::Monthdays, counts.monthdays);
    let weeks = row_reason(sheet, monthdays.at, Sort::Weeks, counts.weeks);
    let weekdays = row_reason(sheet, weeks.at, Sort::Weekdays, counts.weekdays);
    let times = row_reason(sheet, weekdays.at, Sort::Spans, counts.spans);
    let later = earlier(weeks.reason, weekdays.reason);
    earlier(
        times.reason,
        earlier(years.reason, earlier(monthdays.reason, later)),
    )
}

// The parts of the rule at a bit. Its counts were read before, so the other return is never taken.
fn parts_reason(form: Form, sheet: &[u8], at: usize) -> u64
    requires readable { Readable (as_form form) (sheet_bits sheet.now) at }
    requires at_bound { at < 2 ^ 25 }
    ensures { result ≡ parts_reason (rule_read_at (as_form form) (sheet_bits sheet.now) at) }
{
    let Ok((counts, items)) = counts_at(form, sheet, at + title_width(form)) else {
        return 0;
    };
    body_reason(sheet, items, counts)
}

// The rule at a bit: "The number given is the first that applies in the order 1 to 8", 0 where none does. Its title was read before, so the first
// return is never taken.
pub fn reason_at(form: Form, sheet: &[u8], at: usize) -> u64
    requires readable { Readable (as_form form) (sheet_bits sheet.now) at }
    requires at_bound { at < 2 ^ 25 }
    ensures { result ≡ reason (rule_read_at (as_form form) (sheet_bits sheet.now) at) }
{
    let Ok((title, _)) = title_at(form, sheet, at) else {
        return 0;
    };
    if is_fallback(title.operator) {
        1
    } else {
        parts_reason(form, sheet, at)
    }
}
