// An answer's numbers, in their order, at the front of a lent slice of 64-bit numbers; its later numbers stay.
ghost use Rattle.std.specs.Prelude.{◌≡◌, ◌≤◌, length};
ghost use Rattle.definition.specs.Fold.{buffer};
ghost use Rattle.definition.specs.Lookup as state;
ghost use Rattle.answers.specs.Numbers.{fold_numbers, looked_up, write_numbers};

use crate::{Answer, Folded, Written};

fn put_numbers(numbers: &[u64], lent: &mut [u64])
    requires { length numbers.now ≤ length lent.old }
    ensures { lent.new ≡ buffer numbers.now lent.old }
{
    lent[..numbers.len()].copy_from_slice(numbers);
}

// Code, drained, emitted, left, bytes, place, why.
pub fn put_folded(folded: Folded, lent: &mut [u64])
    requires { 7 ≤ length lent.old }
    ensures { lent.new ≡ buffer (fold_numbers folded) lent.old }
{
    let numbers = [
        folded.code,
        folded.drained,
        folded.emitted,
        folded.left,
        folded.bytes,
        folded.place,
        folded.why,
    ];
    put_numbers(&numbers, lent);
}

// Code, kind, comment, place.
pub fn put_looked(looked: Answer, lent: &mut [u64])
    requires { 4 ≤ length lent.old }
    ensures { lent.new ≡ buffer (state.numbers (looked_up looked)) lent.old }
{
    let numbers = [looked.code, looked.kind, looked.comment, looked.place];
    put_numbers(&numbers, lent);
}

// Code, bytes, place.
pub fn put_written(written: Written, lent: &mut [u64])
    requires { 3 ≤ length lent.old }
    ensures { lent.new ≡ buffer (write_numbers written) lent.old }
{
    let numbers = [
        written.code as u64,
        written.bytes as u64,
        written.place as u64,
    ];
    put_numbers(&numbers, lent);
}
