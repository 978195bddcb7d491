// From tables and cut dimensions to the result: a list for each box (6, 14), pages of the folded rules, and these written before the rules that are left (13,
// 7); by the engine of columns, or by the plain one where that is asked for.
//
// Clearing buffers for 4,096 boxes would take longer than the fold of a few, so that there are some sizes to choose from: by a match, since a const argument
// can't be computed. A function that makes such buffers is never put into its caller: then a sheet with few boxes has small arrays on its stack only.
ghost use Rattle.std.specs.Prelude.{List, ◌≤◌};
ghost use Rattle.definition.specs.Rule.{Rule};
ghost use Rattle.forms.specs.Form.{as_form};
ghost use Rattle.normalize.specs.Folds.{Foldable, Folds};

use super::Engine;
use super::columns_engine::fold_columns;
use super::plain_engine::fold_plain;
use answers::Folded;
use fold_write::Left;
use forms::Form;
use paving::place::size_of;
use tables::lent::{Cuts, DrainedRules};

// For how many boxes buffers are taken: where many rules are drawn over few boxes for more than there are, since a larger store of lists seldom has to be
// searched for those that no box holds any longer.
fn buffers_for(boxes: usize, rules: usize) -> usize
    ensures { boxes ≤ result }
{
    if rules <= 64 { boxes } else { boxes.max(257) }
}

// Folds the boxes, in buffers for so many of them or for more.
pub fn fold_boxes(
    form: Form,
    sheet: &[u8],
    left: Left,
    out: &mut [u8],
    rules: DrainedRules,
    cuts: Cuts,
    engine: Engine,
) -> Folded
    requires { (rs : List Rule) × Foldable (as_form form) sheet.now left rules cuts rs }
    ensures { Folds (as_form form) sheet.now out.old result out.new }
{
    let boxes = size_of(cuts.sizes, 4);
    match engine {
        Engine::Plain => match boxes {
            0..=64 => fold_plain::<2112, 65, 832>(form, sheet, left, out, rules, cuts),
            _ => fold_plain::<135168, 4097, 53248>(form, sheet, left, out, rules, cuts),
        },
        Engine::Columns => match buffers_for(boxes, rules.states.len()) {
            0..=16 => fold_columns::<16, 1089, 34, 208>(form, sheet, left, out, rules, cuts),
            17..=256 => fold_columns::<256, 16929, 514, 3328>(form, sheet, left, out, rules, cuts),
            257..=1024 => fold_columns::<1024, 33825, 1026, 13312>(
                form, sheet, left, out, rules, cuts,
            ),
            _ => fold_columns::<4096, 33825, 1026, 53248>(form, sheet, left, out, rules, cuts),
        },
    }
}
