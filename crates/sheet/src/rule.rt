// A rule's head and its end: operator, kind and comment; the five counts; and the items behind them.
ghost use Rattle.std.specs.Prelude.{◌≡◌, true, ◌≤◌, ◌<◌, ◌^◌};
ghost use Rattle.definition.specs.Field.{Layout, sheet_bits};
ghost use Rattle.definition.specs.Sheet.{sheet_limits, title_width, title, counts, body, rule};
ghost use Rattle.answers.specs.Refusal.{read_as};
ghost use Rattle.forms.specs.Form.{as_form};
ghost use Rattle.item.specs.Begins.{BeginsSome};
ghost use Rattle.sheet.specs.End.{ends, as_step};
ghost use Rattle.sheet.specs.Head.{as_title, as_counts, AllAtMost};
ghost use Rattle.sheet.specs.Rules.{counted_ends};

use crate::end::row_end;
use answers::{Read, Refusal};
use field::width;
use forms::{Form, item_count_width, title_width};
use item::sort::Sort;
use limits::items_allowed;

#[derive(Clone, Copy)]
pub struct Title {
    pub operator: u64,
    pub kind: u64,
    pub comment: u64,
}

// How many items of each sort.
#[derive(Clone, Copy)]
pub struct Counts {
    pub years: u64,
    pub monthdays: u64,
    pub weeks: u64,
    pub weekdays: u64,
    pub spans: u64,
}

// "Rule: operator 2 (0 Normal, 1 Additional, 2 Fallback); kind 2 (0 Open, 1 Closed, 2 Unknown); comment 16".
pub fn title_at(form: Form, sheet: &[u8], at: usize) -> Read<Title>
    requires { at < 2 ^ 31 }
    ensures { read_as as_title result ≡ (title (as_form form) sheet_limits).read (sheet_bits sheet.now) at }
{
    let (operator, after_operator) = field::choice_at(sheet, at)?;
    let (kind, after_kind) = field::choice_at(sheet, after_operator)?;
    let (comment, next) = field::comment_at(form, sheet, after_kind)?;
    Ok((
        Title {
            operator,
            kind,
            comment,
        },
        next,
    ))
}

// "five counts of 10 each: years, monthdays, weeks, weekdays, spans".
pub fn counts_at(form: Form, sheet: &[u8], at: usize) -> Read<Counts>
    requires { at < 2 ^ 31 }
    ensures { read_as as_counts result ≡ (counts (as_form form) sheet_limits).read (sheet_bits sheet.now) at }
{
    let (years, after_years) = field::count_at(form, sheet, at)?;
    let (monthdays, after_monthdays) = field::count_at(form, sheet, after_years)?;
    let (weeks, after_weeks) = field::count_at(form, sheet, after_monthdays)?;
    let (weekdays, after_weekdays) = field::count_at(form, sheet, after_weeks)?;
    let (spans, next) = field::count_at(form, sheet, after_weekdays)?;
    Ok((
        Counts {
            years,
            monthdays,
            weeks,
            weekdays,
            spans,
        },
        next,
    ))
}

// The items behind a rule's head, sort after sort.
fn body_end(sheet: &[u8], at: usize, counts: Counts) -> Result<usize, Refusal>
    requires { (at < 2 ^ 27) × AllAtMost 1024 counts }
    ensures { as_step result ≡ ends ((body (as_counts counts)).read (sheet_bits sheet.now) at) }
{
    let after_years = row_end(sheet, at, Sort::Years, counts.years)?;
    let after_monthdays = row_end(sheet, after_years, Sort::Monthdays, counts.monthdays)?;
    let after_weeks = row_end(sheet, after_monthdays, Sort::Weeks, counts.weeks)?;
    let after_weekdays = row_end(sheet, after_weeks, Sort::Weekdays, counts.weekdays)?;
    row_end(sheet, after_weekdays, Sort::Spans, counts.spans)
}

// Whether 56 bits begin with a lawful title: any comment is.
fn lawful_title(form: Form, bits: u64) -> bool
    ensures { result ≡ true → BeginsSome 56 bits (title (as_form form) sheet_limits) (title_width (as_form form)) }
{
    field::part(bits, 54, width::CHOICE) < 3 && field::part(bits, 52, width::CHOICE) < 3
}

// Whether all five counts keep the limit.
fn counts_allowed(counts: Counts) -> bool
    ensures { result ≡ true → AllAtMost 16 counts }
{
    items_allowed(counts.years)
        && items_allowed(counts.monthdays)
        && items_allowed(counts.weeks)
        && items_allowed(counts.weekdays)
        && items_allowed(counts.spans)
}

// The counts, and the items that they count. Three counts and two have room in 56 bits, all five have not.
fn counted_end(form: Form, sheet: &[u8], at: usize) -> Result<usize, Refusal>
    requires { at < 2 ^ 26 }
    ensures { as_step result ≡ counted_ends (as_form form) (sheet_bits sheet.now) at }
{
    let width = item_count_width(form);
    let later = at + 3 * width;
    if later / 8 + 8 <= sheet.len() {
        let three = field::wide_at(sheet, at);
        let two = field::wide_at(sheet, later);
        let counts = Counts {
            years: field::part(three, 56 - width, width),
            monthdays: field::part(three, 56 - 2 * width, width),
            weeks: field::part(three, 56 - 3 * width, width),
            weekdays: field::part(two, 56 - width, width),
            spans: field::part(two, 56 - 2 * width, width),
        };
        if counts_allowed(counts) {
            return body_end(sheet, later + 2 * width, counts);
        }
    }
    let (counts, items) = counts_at(form, sheet, at)?;
    body_end(sheet, items, counts)
}

// A whole rule.
pub fn rule_end(form: Form, sheet: &[u8], at: usize) -> Result<usize, Refusal>
    requires { at < 2 ^ 25 }
    ensures { as_step result ≡ ends ((rule (as_form form) sheet_limits).read (sheet_bits sheet.now) at) }
{
    if at / 8 + 8 <= sheet.len() && lawful_title(form, field::wide_at(sheet, at)) {
        return counted_end(form, sheet, at + title_width(form));
    }
    let (_, after_title) = title_at(form, sheet, at)?;
    counted_end(form, sheet, after_title)
}
