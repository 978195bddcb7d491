// Bits written into a lent buffer: a field, bits copied from a sheet to any offset. What a buffer then holds is said of its
// bits: `sets` stores a row of them from a place on, and every other bit stays.
#![tactic(auto)]

ghost use Rattle.std.specs.Prelude.{◌≡◌, ◌+◌, ◌*◌, ◌-◌, ◌%◌, ◌≤◌, ◌<◌, ◌^◌, length, take, drop};
ghost use Rattle.std.proofs.lemmas.List.Edits.{sets};
ghost use Rattle.definition.specs.Field.{bits, sheet_bits};

use field::low_bits;

// Two numbers as one: the bits of the first, then those of the second, which are `width`.
pub fn joined(high: u64, width: usize, low: u64) -> u64
    requires { (width < 64) × (high < 2 ^ (64 - width)) × (low < 2 ^ width) }
    ensures { result ≡ high * 2 ^ width + low }
{
    (high << width) + low
}

// A number in whole bytes, from the byte `first` up to `past`: the last byte first, which holds the number's last bits.
fn put_bytes(out: &mut [u8], first: usize, past: usize, number: u64)
    requires { (first ≤ past) × (past ≤ length out.old) × (number < 2 ^ (8 * (past - first))) }
    ensures { sheet_bits out.new ≡ sets (sheet_bits out.old) (8 * first) (bits (8 * (past - first)) number) }
{
    let mut rest = number;
    for index in (first..past).rev() {
        out[index] = (rest % 256) as u8;
        rest /= 256;
    }
}

// A number in `width` bits. What stands before it in its first byte and behind it in its last one is stored again with it; the bytes in between are its
// own, so nothing is read there: a byte that was just written would have to be waited for.
pub fn put_field(out: &mut [u8], at: usize, width: usize, value: u64)
    requires { (width ≤ 56) × (at < 2 ^ 62) × (at + width ≤ 8 * length out.old) × (value < 2 ^ width) }
    ensures { sheet_bits out.new ≡ sets (sheet_bits out.old) at (bits width value) }
{
    if width == 0 {
        return;
    }
    let end = at + width;
    let first = at / 8;
    let past = (end + 7) / 8;
    let behind = 8 * past - end;
    let kept = u64::from(out[first]) >> (8 - at % 8);
    let after = low_bits(u64::from(out[past - 1]), behind);
    put_bytes(
        out,
        first,
        past,
        joined(joined(kept, width, value), behind, after),
    );
}

// Bits of a sheet, copied to any place of a buffer, 32 at a time.
fn copy_fields(sheet: &[u8], from: usize, count: usize, out: &mut [u8], at: usize)
    requires { (from + count ≤ 8 * length sheet.now) × (at + count ≤ 8 * length out.old) × (from + count < 2 ^ 32) × (at + count < 2 ^ 62) }
    ensures { sheet_bits out.new ≡ sets (sheet_bits out.old) at (take count (drop from (sheet_bits sheet.now))) }
{
    // Not a plain walk: each step is 32 bits, but the last one as long as what is left.
    let mut done: usize = 0;
    while done < count {
        let width = (count - done).min(32);
        put_field(
            out,
            at + done,
            width,
            field::field_at(sheet, from + done, width),
        );
        done += width;
    }
}

// Bits of a sheet, copied to whole bytes of a buffer: each is made of the two bytes in which its bits stand. So a byte behind the last one is read.
fn copy_bytes(sheet: &[u8], from: usize, count: usize, out: &mut [u8], first: usize)
    requires { (from + 8 * count + 8 ≤ 8 * length sheet.now) × (first + count ≤ length out.old) × (from + 8 * count < 2 ^ 32) }
    ensures { sheet_bits out.new ≡ sets (sheet_bits out.old) (8 * first) (take (8 * count) (drop from (sheet_bits sheet.now))) }
{
    let start = from / 8;
    let behind = 8 - from % 8;
    for done in 0..count {
        let two = u64::from(sheet[start + done]) * 256 + u64::from(sheet[start + done + 1]);
        out[first + done] = ((two >> behind) % 256) as u8;
    }
}

// Bits of a sheet, copied to any place of a buffer: some up to the buffer's next byte, then whole bytes, then what is left.
pub fn copy_bits(sheet: &[u8], from: usize, count: usize, out: &mut [u8], at: usize)
    requires { (from + count ≤ 8 * length sheet.now) × (at + count ≤ 8 * length out.old) × (from + count < 2 ^ 32) × (at + count < 2 ^ 62) }
    ensures { sheet_bits out.new ≡ sets (sheet_bits out.old) at (take count (drop from (sheet_bits sheet.now))) }
{
    let lead = (8 - at % 8) % 8;
    if count < lead + 16 {
        copy_fields(sheet, from, count, out, at);
        return;
    }
    copy_fields(sheet, from, lead, out, at);
    let bytes = (count - lead) / 8 - 1;
    let done = lead + 8 * bytes;
    copy_bytes(sheet, from + lead, bytes, out, (at + lead) / 8);
    copy_fields(sheet, from + done, count - done, out, at + done);
}
