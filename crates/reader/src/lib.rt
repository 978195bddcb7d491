// The reader of 01: "a view that holds the lent sheet and a bit position". The functions over it are thin: the work is done by `read_at` on a
// plain slice and numbers, by crate `field`. The check of a sheet begins here: `rule_count` opens the sheet and takes its mark and its rule count.
#![tactic(auto)]

ghost use Rattle.std.specs.Prelude.{◌≡◌};
ghost use Rattle.definition.specs.Field.{Layout, sheet_bits};
ghost use Rattle.definition.specs.Sheet.{sheet_limits, opening};
ghost use Rattle.forms.specs.Form.{as_form};
ghost use Rattle.field.specs.Answer.{as_read};
ghost use Rattle.reader.specs.Says.{Says};

use answers::{Read, Reason, Refusal};
use forms::{Form, mark, mark_width};
use limits::width_over;

#[derive(Clone, Copy)]
pub struct Reader<'a> {
    pub sheet: &'a [u8],
    pub at: usize,
}

// A field of any value, at any bit of any sheet. `None` where no reading can be given: the field is wider than the 32 bits that crate `field`
// reads, or it lies so far into the sheet that no `usize` holds the bit after it. Crate `field` requires a small place, so it is given the sheet
// from the field's first byte on, and the place within that byte.
pub fn read_at(sheet: &[u8], at: usize, width: usize) -> Option<Read<u64>>
    ensures { Says result sheet.now at width }
{
    if width_over(width) {
        return None;
    }
    let past_end = Err(Refusal {
        reason: Reason::PastEnd,
        place: at,
    });
    let Some(rest) = sheet.get(at / 8..) else {
        return Some(past_end);
    };
    let Ok((value, _)) = field::take_at(rest, at % 8, width) else {
        return Some(past_end);
    };
    let next = at.checked_add(width)?;
    Some(Ok((value, next)))
}

// A view of the whole sheet, at its first bit.
pub fn open<'a>(sheet: &'a [u8]) -> Reader<'a>
    ensures { (result.sheet ≡ sheet.entry) × (result.at ≡ 0) }
{
    Reader { sheet, at: 0 }
}

// The same view at another bit.
pub fn moved<'a>(reader: Reader<'a>, at: usize) -> Reader<'a>
    ensures { (result.sheet ≡ reader.entry.sheet) × (result.at ≡ at) }
{
    Reader {
        sheet: reader.sheet,
        at,
    }
}

// The field of so many bits where the view stands.
pub fn take<'a>(reader: Reader<'a>, width: usize) -> Option<Read<u64>>
    ensures { Says result reader.entry.sheet.now reader.entry.at width }
{
    read_at(reader.sheet, reader.at, width)
}

// A sheet's first field, through a view of it.
pub fn first(sheet: &[u8], width: usize) -> Option<Read<u64>>
    ensures { Says result sheet.now 0 width }
{
    take(open(sheet), width)
}

// How many rules a sheet has. Its first field is the form's mark, refused as unlawful where it is another; the count stands behind it. A mark has
// four bits at most, so that it is read in any sheet.
pub fn rule_count(form: Form, sheet: &[u8]) -> Read<u64>
    ensures { as_read result ≡ (opening (as_form form) sheet_limits).read (sheet_bits sheet.now) 0 }
{
    let (value, next) = first(sheet, mark_width(form)).unwrap()?;
    if value == mark(form) {
        field::rule_count_at(form, sheet, next)
    } else {
        Err(Refusal {
            reason: Reason::Unlawful,
            place: 0,
        })
    }
}
