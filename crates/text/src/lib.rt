// Pieces of text put into a buffer one behind the other: bytes, words, numbers. Each answers the place behind it. What has no room is not
// stored and the place goes on all the same, so a text is measured by putting it into a buffer that is too short for it.
#![tactic(auto)]

ghost use Rattle.std.specs.Prelude.{◌≡◌, [], ◌∷◌, ◌+◌, ◌*◌, ◌≤◌, ◌<◌, ◌^◌, length, take, drop};
ghost use Rattle.definition.specs.Text.{digits, decimal};
ghost use Rattle.text.specs.Put.{Put, Within};

// One byte.
pub fn put_byte(out: &mut [u8], place: usize, byte: u8) -> usize
    requires { place + 1 < 2 ^ 64 }
    ensures { Put out.old place (byte ∷ []) result out.new }
{
    if place < out.len() {
        out[place] = byte;
    }
    place + 1
}

// Some bytes as they stand.
pub fn put_word(out: &mut [u8], place: usize, word: &[u8]) -> usize
    requires { Within place word.now }
    ensures { Put out.old place word.now result out.new }
{
    for (i, byte) in word.iter().enumerate() {
        put_byte(out, place + i, *byte);
    }
    place + word.len()
}

// One of some names of the same width that stand one behind the other.
pub fn put_name(out: &mut [u8], place: usize, names: &[u8], width: usize, index: usize) -> usize
    requires { ((index + 1) * width ≤ length names.now) × (place + width < 2 ^ 64) }
    ensures { Put out.old place (take width (drop (index * width) names.now)) result out.new }
{
    let start = index * width;
    let end = start + width;
    put_word(out, place, &names[start..end])
}

fn digit(value: u64) -> u8
    requires { value < 10 }
    ensures { result ≡ 48 + value }
{
    48 + value as u8
}

// A number by two digits.
pub fn put_two(out: &mut [u8], place: usize, value: u64) -> usize
    requires { (value < 100) × (place + 2 < 2 ^ 64) }
    ensures { Put out.old place (digits 2 value) result out.new }
{
    let next = put_byte(out, place, digit(value / 10));
    put_byte(out, next, digit(value % 10))
}

// A number by four digits.
pub fn put_four(out: &mut [u8], place: usize, value: u64) -> usize
    requires { (value < 10000) × (place + 4 < 2 ^ 64) }
    ensures { Put out.old place (digits 4 value) result out.new }
{
    let next = put_two(out, place, value / 100);
    put_two(out, next, value % 100)
}

// A number without leading zeros: its last digit behind the others.
pub fn put_decimal(out: &mut [u8], place: usize, value: u64) -> usize
    requires { Within place (decimal value) }
    ensures { Put out.old place (decimal value) result out.new }
{
    if value < 10 {
        return put_byte(out, place, digit(value));
    }
    let next = put_decimal(out, place, value / 10);
    put_byte(out, next, digit(value % 10))
}
