// From tables and cut dimensions to the result by the plain engine, in buffers whose sizes the caller chooses. It has a list for each box, so that its lists
// take four times the room of the other engine's store.
ghost use Rattle.std.specs.Prelude.{List, ◌*◌, ◌^◌, ◌≤◌, ◌<◌, length};
ghost use Rattle.definition.specs.Rule.{Rule};
ghost use Rattle.paving.specs.Grid.{size_of};
ghost use Rattle.tables.specs.Sizes.{list_places};
ghost use Rattle.forms.specs.Form.{as_form};
ghost use Rattle.plain.specs.Room.{PlainRoom};
ghost use Rattle.normalize.specs.Folds.{Foldable, Folds};

use super::written::write_paved;
use answers::Folded;
use fold_write::Left;
use forms::Form;
use tables::lent::{Cuts, DrainedRules};

// Folds the boxes in the buffers that are lent.
fn fold_plain_in(
    form: Form,
    sheet: &[u8],
    left: Left,
    out: &mut [u8],
    rules: DrainedRules,
    cuts: Cuts,
    lists: &mut [u16],
    numbers: &mut [u16],
    pages: &mut [u16],
) -> Folded
    requires foldable { (rs : List Rule) × Foldable (as_form form) sheet.now left rules cuts rs }
    requires plain_room { PlainRoom lists.old (length numbers.old) (length pages.old) cuts.sizes.now }
    ensures { Folds (as_form form) sheet.now out.old result out.new }
{
    let paved = plain::pave(rules, cuts, lists, numbers, pages);
    write_paved(form, sheet, left, out, rules, lists, pages, paved)
}

// The same with buffers of its own: so many places for lists, numbers of days, and numbers of pages.
#[inline(never)]
pub fn fold_plain<const LISTS: usize, const NUMBERS: usize, const PAGES: usize>(
    form: Form,
    sheet: &[u8],
    left: Left,
    out: &mut [u8],
    rules: DrainedRules,
    cuts: Cuts,
) -> Folded
    requires foldable { (rs : List Rule) × Foldable (as_form form) sheet.now left rules cuts rs }
    requires room { (size_of cuts.sizes.now 4 * list_places ≤ LISTS) × (size_of cuts.sizes.now 4 < NUMBERS) × (13 * size_of cuts.sizes.now 4 ≤ PAGES) }
    requires small { (LISTS < 2 ^ 32) × (NUMBERS < 2 ^ 32) × (PAGES < 2 ^ 32) }
    ensures { Folds (as_form form) sheet.now out.old result out.new }
{
    let mut lists = [0u16; LISTS];
    let mut numbers = [0u16; NUMBERS];
    let mut pages = [0u16; PAGES];
    fold_plain_in(
        form,
        sheet,
        left,
        out,
        rules,
        cuts,
        &mut lists,
        &mut numbers,
        &mut pages,
    )
}
