// From tables and cut dimensions to the result by the engine of columns, in a store and buffers whose sizes the caller chooses.
ghost use Rattle.std.specs.Prelude.{List, ◌-◌, ◌*◌, ◌/◌, ◌^◌, ◌≤◌, ◌<◌, length};
ghost use Rattle.definition.specs.Rule.{Rule};
ghost use Rattle.paving.specs.Grid.{size_of};
ghost use Rattle.draw_rules.specs.Listing.{Places, NoLists};
ghost use Rattle.forms.specs.Form.{as_form};
ghost use Rattle.normalize.specs.Folds.{Foldable, Folds};

use super::written::write_paved;
use answers::Folded;
use fold_write::Left;
use forms::Form;
use paving::place::size_of;
use tables::lent::{Cuts, DrainedRules};

// Folds the boxes in the store and the buffer that are lent, by the engine of columns.
fn fold_columns_in(
    form: Form,
    sheet: &[u8],
    left: Left,
    out: &mut [u8],
    rules: DrainedRules,
    cuts: Cuts,
    cells: &mut [u16],
    lists: &mut [u16],
    memo: &mut [u16],
    pages: &mut [u16],
) -> Folded
    requires foldable { (rs : List Rule) × Foldable (as_form form) sheet.now left rules cuts rs }
    requires no_lists { NoLists cells.old lists.old memo.old cuts.sizes.now × (13 * size_of cuts.sizes.now 4 ≤ length pages.old) }
    ensures { Folds (as_form form) sheet.now out.old result out.new }
{
    let paved = columns::pave(rules, cuts, cells, lists, memo, pages);
    write_paved(form, sheet, left, out, rules, lists, pages, paved)
}

// The same with a store and buffers of its own: for so many boxes, in so many places for lists, with a memo of so many, and with pages of so many numbers.
#[inline(never)]
pub fn fold_columns<const CELLS: usize, const LISTS: usize, const MEMO: usize, const PAGES: usize>(
    form: Form,
    sheet: &[u8],
    left: Left,
    out: &mut [u8],
    rules: DrainedRules,
    cuts: Cuts,
) -> Folded
    requires foldable { (rs : List Rule) × Foldable (as_form form) sheet.now left rules cuts rs }
    requires places { Places (size_of cuts.sizes.now 4) LISTS MEMO ((MEMO - 2) / 2) cuts.sizes.now }
    requires room { (size_of cuts.sizes.now 4 ≤ CELLS) × (13 * size_of cuts.sizes.now 4 ≤ PAGES) }
    requires small { (CELLS < 2 ^ 32) × (LISTS < 2 ^ 32) × (PAGES < 2 ^ 32) }
    ensures { Folds (as_form form) sheet.now out.old result out.new }
{
    let mut cells = [0u16; CELLS];
    let mut lists = [0u16; LISTS];
    let mut memo = [0u16; MEMO];
    let mut pages = [0u16; PAGES];
    let boxes = size_of(cuts.sizes, 4);
    fold_columns_in(
        form,
        sheet,
        left,
        out,
        rules,
        cuts,
        &mut cells[..boxes],
        &mut lists,
        &mut memo,
        &mut pages,
    )
}
