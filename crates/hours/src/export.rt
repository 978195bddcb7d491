// The entries with lent numbers, as C and Rust call them by crate `hours_c`: an answer's numbers go into a lent slice. A slice too short for them is
// answered no, and nothing is written anywhere.
ghost use Rattle.std.specs.Prelude.{◌≡◌, leb, length};
ghost use Rattle.definition.specs.Sheet.{sheet_limits};
ghost use Rattle.definition.specs.Fold.{numbers, written_numbers};
ghost use Rattle.definition.specs.Forms.{fold_in, write_back_in, show_line_in, lookup_in, convert_in};
ghost use Rattle.definition.specs.Lookup as state;
ghost use Rattle.hours.specs.Export.{put};

use answers::lent::{put_folded, put_looked, put_written};
use limits::lacks_room;
use normalize::Engine;

// The fold by one of two engines.
fn put_fold(form: u64, sheet: &[u8], out: &mut [u8], lent: &mut [u64], engine: Engine) -> bool
    ensures { (result ≡ leb 7 (length lent.old))
        × (lent.new ≡ put result (numbers (fold_in sheet_limits form (length out.old) sheet.now)) lent.old)
        × (out.new ≡ put result (fold_in sheet_limits form (length out.old) sheet.now).result out.old) }
{
    if lacks_room(lent.len(), 7) {
        return false;
    }
    put_folded(crate::fold_by(form, sheet, out, engine), lent);
    true
}

// Code, drained, emitted, left, bytes, place, why.
pub fn hours_fold(form: u64, sheet: &[u8], out: &mut [u8], lent: &mut [u64]) -> bool
    ensures { (result ≡ leb 7 (length lent.old))
        × (lent.new ≡ put result (numbers (fold_in sheet_limits form (length out.old) sheet.now)) lent.old)
        × (out.new ≡ put result (fold_in sheet_limits form (length out.old) sheet.now).result out.old) }
{
    put_fold(form, sheet, out, lent, Engine::Columns)
}

// The same by the plain engine.
pub fn hours_fold_plain(form: u64, sheet: &[u8], out: &mut [u8], lent: &mut [u64]) -> bool
    ensures { (result ≡ leb 7 (length lent.old))
        × (lent.new ≡ put result (numbers (fold_in sheet_limits form (length out.old) sheet.now)) lent.old)
        × (out.new ≡ put result (fold_in sheet_limits form (length out.old) sheet.now).result out.old) }
{
    put_fold(form, sheet, out, lent, Engine::Plain)
}

// Code, kind, comment, place.
pub fn hours_lookup(
    form: u64,
    sheet: &[u8],
    year: u64,
    month: u64,
    day: u64,
    minute: u64,
    lent: &mut [u64],
) -> bool
    ensures { (result ≡ leb 4 (length lent.old))
        × (lent.new ≡ put result (state.numbers (lookup_in sheet_limits form sheet.now year month day minute)) lent.old) }
{
    if lacks_room(lent.len(), 4) {
        return false;
    }
    put_looked(crate::lookup(form, sheet, year, month, day, minute), lent);
    true
}

// Code, bytes, place.
pub fn hours_write_back(form: u64, sheet: &[u8], out: &mut [u8], lent: &mut [u64]) -> bool
    ensures { (result ≡ leb 3 (length lent.old))
        × (lent.new ≡ put result (written_numbers (write_back_in sheet_limits form (length out.old) sheet.now)) lent.old)
        × (out.new ≡ put result (write_back_in sheet_limits form (length out.old) sheet.now).result out.old) }
{
    if lacks_room(lent.len(), 3) {
        return false;
    }
    put_written(crate::write_back(form, sheet, out), lent);
    true
}

// Code, bytes, place.
pub fn hours_line(form: u64, sheet: &[u8], out: &mut [u8], lent: &mut [u64]) -> bool
    ensures { (result ≡ leb 3 (length lent.old))
        × (lent.new ≡ put result (written_numbers (show_line_in sheet_limits form (length out.old) sheet.now)) lent.old)
        × (out.new ≡ put result (show_line_in sheet_limits form (length out.old) sheet.now).result out.old) }
{
    if lacks_room(lent.len(), 3) {
        return false;
    }
    put_written(crate::line(form, sheet, out), lent);
    true
}

// Code, bytes, place.
pub fn hours_convert(form: u64, sheet: &[u8], out: &mut [u8], lent: &mut [u64]) -> bool
    ensures { (result ≡ leb 3 (length lent.old))
        × (lent.new ≡ put result (written_numbers (convert_in sheet_limits form (length out.old) sheet.now)) lent.old)
        × (out.new ≡ put result (convert_in sheet_limits form (length out.old) sheet.now).result out.old) }
{
    if lacks_room(lent.len(), 3) {
        return false;
    }
    put_written(crate::convert(form, sheet, out), lent);
    true
}
