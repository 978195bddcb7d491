// Writes the result: all is measured first, then refused where the form can't count it (13) or the buffer has no room (7), or written: mark and rule count, the rules of the pages,
// the rules left as their bits stand in the sheet, zero bits to the byte's end.
#![tactic(auto)]

ghost use Rattle.std.specs.Prelude.{◌≡◌, cond, List, ◌-◌, ◌*◌, ◌≤◌, ◌<◌, ◌^◌, ltb, length, get_or};
ghost use Rattle.definition.specs.Field.{packed};
ghost use Rattle.definition.specs.Rule.{Rule};
ghost use Rattle.definition.specs.Fold.{buffer};
ghost use Rattle.day_writer.specs.Rules.{Countable};
ghost use Rattle.forms.specs.Form.{as_form};
ghost use Rattle.sheet_writer.specs.Frame.{between};
ghost use Rattle.day_book.specs.Book.{Open};
ghost use Rattle.page_writer.specs.Paged.{day_words, rules_of_pages, PagesReady};
ghost use Rattle.fold_write.specs.Emission.{result_bits};
ghost use Rattle.fold_write.specs.Emits.{PagesOf, LeftOf, Emits};

use answers::{Folded, Reason, Refusal};
use forms::{Form, most_rules, opening_width};
use limits::lacks_room;
use page_writer::paged::PagedRules;
use page_writer::short::all_short;
use page_writer::{measure_pages, write_pages};

// The rules left, where they stand in the sheet: from a bit up to another, how many they are, and why the first of them stopped the fold, by the number that C gets.
#[derive(Clone, Copy)]
pub struct Left {
    pub start: usize,
    pub end: usize,
    pub rules: usize,
    pub why: u64,
}

// The rules left: from the first of them on, or from the end where there is none.
pub fn rules_left(begins: &[usize], rules: usize, count: usize, end: usize, why: u64) -> Left
    requires { (count ≤ length begins.now) × (rules ≤ count) }
    ensures { (result.start ≡ cond (ltb rules count) (get_or begins.now rules 0) end) × (result.end ≡ end) × (result.rules ≡ count - rules) × (result.why ≡ why) }
{
    let start = if rules < count { begins[rules] } else { end };
    Left {
        start,
        end,
        rules: count - rules,
        why,
    }
}

// A whole sheet at the front of a buffer that has room for it.
fn write_sheet(
    form: Form,
    sheet: &[u8],
    left: Left,
    out: &mut [u8],
    book: &mut [u64],
    notes: &mut [u16],
    filled: usize,
    room: usize,
    paged: PagedRules,
    rules: usize,
)
    requires pages { PagesReady (as_form form) paged room }
    requires fact { Open (day_words paged) notes.old book.old room filled }
    requires start_le_end { (left.start ≤ left.end) × (left.end ≤ 8 * length sheet.now) × (left.end < 2 ^ 32) }
    requires rules_bound { rules < 2 ^ (as_form form).rule_count }
    requires countable { Countable (as_form form) (rules_of_pages paged) }
    requires end_len_bound { (length (result_bits (as_form form) rules (rules_of_pages paged) (between sheet.now left.start left.end)) ≤ 8 * length out.old)
        × (length (result_bits (as_form form) rules (rules_of_pages paged) (between sheet.now left.start left.end)) < 2 ^ 60) }
    ensures { out.new
        ≡ buffer (packed (result_bits (as_form form) rules (rules_of_pages paged.entry) (between sheet.now left.start left.end))) out.old }
{
    let first = sheet_writer::put_opening(form, out, rules as u64);
    let place = write_pages(form, out, first, book, notes, filled, room, paged);
    sheet_writer::put_left(sheet, left.start, left.end, out, place);
}

// The result of a fold whose drained rules stand folded on pages, with an empty book of days: written to the front of the buffer, or refused with
// nothing written.
fn emit_in(
    form: Form,
    sheet: &[u8],
    left: Left,
    out: &mut [u8],
    book: &mut [u64],
    notes: &mut [u16],
    room: usize,
    paged: PagedRules,
) -> Folded
    requires paged { (rs : List Rule) × PagesOf (as_form form) paged rs × LeftOf (as_form form) sheet.now paged left rs }
    requires pages { PagesReady (as_form form) paged room }
    requires fact { Open (day_words paged) notes.old book.old room 0 }
    ensures { (rs : List Rule) → PagesOf (as_form form) paged.entry rs → LeftOf (as_form form) sheet.now paged.entry left rs
        → Emits (as_form form) out.old rs result out.new }
{
    let measured = measure_pages(form, book, notes, room, paged);
    let rules = measured.rules + left.rules;
    if (rules > most_rules(form)) | measured.past {
        return Folded::refused(Refusal {
            reason: Reason::PastCounts,
            place: 0,
        });
    }
    let bytes = (opening_width(form) + measured.bits + (left.end - left.start) + 7) / 8;
    if lacks_room(out.len(), bytes) {
        return Folded::refused(Refusal {
            reason: Reason::NoRoom,
            place: bytes,
        });
    }
    write_sheet(
        form,
        sheet,
        left,
        out,
        book,
        notes,
        measured.filled,
        room,
        paged,
        rules,
    );
    Folded {
        code: 0,
        drained: paged.states.len() as u64,
        emitted: measured.rules as u64,
        left: left.rules as u64,
        bytes: bytes as u64,
        place: 0,
        why: left.why,
    }
}

// The same with a book that it makes: notes of so many days, and so many words, among them room for a day.
fn emit_with<const NOTES: usize, const BOOK: usize>(
    form: Form,
    sheet: &[u8],
    left: Left,
    out: &mut [u8],
    room: usize,
    paged: PagedRules,
) -> Folded
    requires paged { (rs : List Rule) × PagesOf (as_form form) paged rs × LeftOf (as_form form) sheet.now paged left rs }
    requires pages { PagesReady (as_form form) paged room }
    requires roomy { (room ≤ BOOK) × (BOOK < 65536) × (NOTES < 65536) }
    ensures { (rs : List Rule) → PagesOf (as_form form) paged.entry rs → LeftOf (as_form form) sheet.now paged.entry left rs
        → Emits (as_form form) out.old rs result out.new }
{
    let mut notes = [0u16; NOTES];
    let mut book = [0u64; BOOK];
    emit_in(form, sheet, left, out, &mut book, &mut notes, room, paged)
}

// The result of a fold whose drained rules stand folded on pages: written to the front of the buffer, or refused with nothing written. How large
// the book of days is hangs on the lists: most sheets have short ones, and a large book would take longer to clear than they to fold. Where no list has
// more than 4 rules it keeps some short days, else 4,096 words, and as much as one day may have.
pub fn emit(form: Form, sheet: &[u8], left: Left, out: &mut [u8], paged: PagedRules) -> Folded
    requires { (rs : List Rule) × PagesOf (as_form form) paged rs × LeftOf (as_form form) sheet.now paged left rs }
    ensures { (rs : List Rule) → PagesOf (as_form form) paged.entry rs → LeftOf (as_form form) sheet.now paged.entry left rs
        → Emits (as_form form) out.old rs result out.new }
{
    if all_short(paged.lists, paged.pages, paged.count) {
        emit_with::<66, 513>(form, sheet, left, out, 257, paged)
    } else {
        emit_with::<1026, 6145>(form, sheet, left, out, 2049, paged)
    }
}
