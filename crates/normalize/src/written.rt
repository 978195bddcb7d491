// What an engine answers, written: the folded rules' pages before the rules that are left, or the refusal.
ghost use Rattle.std.specs.Prelude.{List};
ghost use Rattle.definition.specs.Rule.{Rule};
ghost use Rattle.forms.specs.Form.{as_form};
ghost use Rattle.normalize.specs.Folds.{ToWrite, Folds};

use answers::{Folded, Refusal};
use fold_write::{Left, emit};
use forms::Form;
use page_writer::paged::PagedRules;
use tables::lent::DrainedRules;

// Writes the pages (13, 7), or answers with the refusal (6, 14).
pub fn write_paved(
    form: Form,
    sheet: &[u8],
    left: Left,
    out: &mut [u8],
    rules: DrainedRules,
    lists: &[u16],
    pages: &[u16],
    paved: Result<usize, Refusal>,
) -> Folded
    requires { (rs : List Rule) × ToWrite (as_form form) sheet.now left rules lists.now pages.now paved rs }
    ensures { Folds (as_form form) sheet.now out.old result out.new }
{
    match paved {
        Err(refusal) => Folded::refused(refusal),
        Ok(count) => emit(
            form,
            sheet,
            left,
            out,
            PagedRules {
                states: rules.states,
                span_counts: rules.span_counts,
                spans: rules.spans,
                lists,
                pages,
                count,
            },
        ),
    }
}
