// The two forms of the packed sheet: which one a caller's number names, what a sheet of it starts with, how wide the fields are whose width it
// sets, how much its counts can carry, and whether it has room for a comment. The widths of all other fields are constants of crate `field`.
#![tactic(auto)]

ghost use Rattle.std.specs.Prelude.{◌≡◌, ◌^◌, ◌≤◌, leb};
ghost use Rattle.definition.specs.Sheet.{opening_width, title_width, head_width, most_rules, most_items};
ghost use Rattle.definition.specs.Forms.{form_named, other};
ghost use Rattle.forms.specs.Form.{as_form, as_named};

#[derive(Clone, Copy)]
pub enum Form {
    One,
    Two,
}

// 02, M-106: "The caller says which form is meant". All 64 bits of the number count; a number that names no form has none.
pub fn form_of(number: u64) -> Option<Form>
    ensures { as_named result ≡ form_named number }
{
    match number {
        1 => Some(Form::One),
        2 => Some(Form::Two),
        _ => None,
    }
}

// The form that a sheet of this form is converted to.
pub fn other_form(form: Form) -> Form
    ensures { as_form result ≡ other (as_form form) }
{
    match form {
        Form::One => Form::Two,
        Form::Two => Form::One,
    }
}

// "Form 2 of the packed sheet starts with the four bits 0010", form 1 with none.
pub fn mark_width(form: Form) -> usize
    ensures { (result ≡ (as_form form).mark_width) × (result ≤ 4) }
{
    match form {
        Form::One => 0,
        Form::Two => 4,
    }
}

pub fn mark(form: Form) -> u64
    ensures { (result ≡ (as_form form).mark) × (result ≤ 2) }
{
    match form {
        Form::One => 0,
        Form::Two => 2,
    }
}

pub fn rule_count_width(form: Form) -> usize
    ensures { (result ≡ (as_form form).rule_count) × (result ≤ 24) }
{
    match form {
        Form::One => 16,
        Form::Two => 24,
    }
}

pub fn comment_width(form: Form) -> usize
    ensures { (result ≡ (as_form form).comment) × (result ≤ 24) }
{
    match form {
        Form::One => 16,
        Form::Two => 24,
    }
}

pub fn item_count_width(form: Form) -> usize
    ensures { (result ≡ (as_form form).item_count) × (result ≤ 12) }
{
    match form {
        Form::One => 10,
        Form::Two => 12,
    }
}

// The mark and the rule count: where a sheet's first rule begins.
pub fn opening_width(form: Form) -> usize
    ensures { (result ≡ opening_width (as_form form)) × (result ≤ 28) }
{
    mark_width(form) + rule_count_width(form)
}

// A rule's operator, kind and comment.
pub fn title_width(form: Form) -> usize
    ensures { (result ≡ title_width (as_form form)) × (result ≤ 28) }
{
    4 + comment_width(form)
}

// With them, its five counts.
pub fn head_width(form: Form) -> usize
    ensures { (result ≡ head_width (as_form form)) × (result ≤ 88) }
{
    title_width(form) + 5 * item_count_width(form)
}

// Going to form 1, "a comment is above 65,535".
pub fn comment_over(form: Form, comment: u64) -> bool
    ensures { result ≡ leb (2 ^ (as_form form).comment) comment }
{
    match form {
        Form::One => comment > 65535,
        Form::Two => comment > 16777215,
    }
}

// The most rules that a sheet's rule count can carry.
pub fn most_rules(form: Form) -> usize
    ensures { result ≡ most_rules (as_form form) }
{
    match form {
        Form::One => 65535,
        Form::Two => 16777215,
    }
}

// The most items of a sort that a rule's counts can carry.
pub fn most_items(form: Form) -> u16
    ensures { result ≡ most_items (as_form form) }
{
    match form {
        Form::One => 1023,
        Form::Two => 4095,
    }
}
