// Kind and comment as text, and what stands before a rule.
ghost use Rattle.definition.specs.Text.{Text};
ghost use Rattle.definition.specs.Rule.{operator_of};
ghost use Rattle.definition.specs.Line.{before, state_text};
ghost use Rattle.text.specs.Put.{Put, Within};
ghost use Rattle.item_text.specs.State.{state_of, kind_part, comment_part};

use text::{put_byte, put_decimal, put_word};

// "`off` for Closed, `unknown` for Unknown, and `open` only where an Open rule has a comment".
fn put_kind(out: &mut [u8], place: usize, kind: u64, comment: u64) -> usize
    requires { Within place (kind_part (state_of kind comment)) }
    ensures { Put out.old place (kind_part (state_of kind comment)) result out.new }
{
    match kind {
        0 if comment == 0 => place,
        0 => put_word(out, place, b" open"),
        1 => put_word(out, place, b" off"),
        _ => put_word(out, place, b" unknown"),
    }
}

// "a comment number n as `"n"`, 0 not written".
fn put_comment(out: &mut [u8], place: usize, kind: u64, comment: u64) -> usize
    requires { Within place (comment_part (state_of kind comment)) }
    ensures { Put out.old place (comment_part (state_of kind comment)) result out.new }
{
    if comment == 0 {
        return place;
    }
    let open = put_word(out, place, b" \"");
    let close = put_decimal(out, open, comment);
    put_byte(out, close, b'"')
}

// "then kind, then comment".
pub fn put_state(out: &mut [u8], place: usize, kind: u64, comment: u64) -> usize
    requires { Within place (state_text.write (state_of kind comment)) }
    ensures { Put out.old place (state_text.write (state_of kind comment)) result out.new }
{
    let next = put_kind(out, place, kind, comment);
    put_comment(out, next, kind, comment)
}

// "`; ` before a Normal rule, `, ` before an Additional one, ` || ` before a Fallback".
pub fn put_before(out: &mut [u8], place: usize, operator: u64) -> usize
    requires { Within place (before (operator_of operator)) }
    ensures { Put out.old place (before (operator_of operator)) result out.new }
{
    match operator {
        0 => put_word(out, place, b"; "),
        1 => put_word(out, place, b", "),
        _ => put_word(out, place, b" || "),
    }
}
