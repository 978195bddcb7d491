// The entries with the C calling convention: each calls the one of its name in `hours::export`, and promises what that does.
#![tactic(auto)]

ghost use Rattle.std.specs.Prelude.{◌≡◌, leb, length};
ghost use Rattle.definition.specs.Sheet.{sheet_limits};
ghost use Rattle.definition.specs.Fold.{numbers, written_numbers};
ghost use Rattle.definition.specs.Forms.{fold_in, write_back_in, show_line_in, lookup_in, convert_in};
ghost use Rattle.definition.specs.Lookup as state;
ghost use Rattle.hours.specs.Export.{put};

use hours::export;

// Code, drained, emitted, left, bytes, place, why.
#[unsafe(no_mangle)]
pub extern "C" fn hours_fold(form: u64, sheet: &[u8], out: &mut [u8], lent: &mut [u64]) -> bool
    ensures { (result ≡ leb 7 (length lent.old))
        × (lent.new ≡ put result (numbers (fold_in sheet_limits form (length out.old) sheet.now)) lent.old)
        × (out.new ≡ put result (fold_in sheet_limits form (length out.old) sheet.now).result out.old) }
{
    export::hours_fold(form, sheet, out, lent)
}

// The same by the plain engine.
#[unsafe(no_mangle)]
pub extern "C" fn hours_fold_plain(
    form: u64,
    sheet: &[u8],
    out: &mut [u8],
    lent: &mut [u64],
) -> bool
    ensures { (result ≡ leb 7 (length lent.old))
        × (lent.new ≡ put result (numbers (fold_in sheet_limits form (length out.old) sheet.now)) lent.old)
        × (out.new ≡ put result (fold_in sheet_limits form (length out.old) sheet.now).result out.old) }
{
    export::hours_fold_plain(form, sheet, out, lent)
}

// Code, kind, comment, place.
#[unsafe(no_mangle)]
pub extern "C" fn hours_lookup(
    form: u64,
    sheet: &[u8],
    year: u64,
    month: u64,
    day: u64,
    minute: u64,
    lent: &mut [u64],
) -> bool
    ensures { (result ≡ leb 4 (length lent.old))
        × (lent.new ≡ put result (state.numbers (lookup_in sheet_limits form sheet.now year month day minute)) lent.old) }
{
    export::hours_lookup(form, sheet, year, month, day, minute, lent)
}

// Code, bytes, place.
#[unsafe(no_mangle)]
pub extern "C" fn hours_write_back(
    form: u64,
    sheet: &[u8],
    out: &mut [u8],
    lent: &mut [u64],
) -> bool
    ensures { (result ≡ leb 3 (length lent.old))
        × (lent.new ≡ put result (written_numbers (write_back_in sheet_limits form (length out.old) sheet.now)) lent.old)
        × (out.new ≡ put result (write_back_in sheet_limits form (length out.old) sheet.now).result out.old) }
{
    export::hours_write_back(form, sheet, out, lent)
}

// Code, bytes, place.
#[unsafe(no_mangle)]
pub extern "C" fn hours_line(form: u64, sheet: &[u8], out: &mut [u8], lent: &mut [u64]) -> bool
    ensures { (result ≡ leb 3 (length lent.old))
        × (lent.new ≡ put result (written_numbers (show_line_in sheet_limits form (length out.old) sheet.now)) lent.old)
        × (out.new ≡ put result (show_line_in sheet_limits form (length out.old) sheet.now).result out.old) }
{
    export::hours_line(form, sheet, out, lent)
}

// Code, bytes, place.
#[unsafe(no_mangle)]
pub extern "C" fn hours_convert(form: u64, sheet: &[u8], out: &mut [u8], lent: &mut [u64]) -> bool
    ensures { (result ≡ leb 3 (length lent.old))
        × (lent.new ≡ put result (written_numbers (convert_in sheet_limits form (length out.old) sheet.now)) lent.old)
        × (out.new ≡ put result (convert_in sheet_limits form (length out.old) sheet.now).result out.old) }
{
    export::hours_convert(form, sheet, out, lent)
}
