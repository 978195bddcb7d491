// Words copied within a slice: a list goes from one place to another so.
ghost use Rattle.std.specs.Prelude.{◌+◌, ◌≤◌, ◌<◌, length};
ghost use Rattle.tables.specs.Copied.{Copied};

// Copies words within a slice, the first of them first. What is written lies before what is read, or behind all of it. The library's `copy_within` goes
// from the last word back where it copies upward, one word at a time: the compiler copies these by eights.
pub fn copy_words(words: &mut [u16], from: usize, to: usize, count: usize)
    requires { (from + count ≤ length words.old) × (to + count ≤ length words.old) × (from < to → from + count ≤ to) }
    ensures { Copied words.old words.new from to count }
{
    for i in 0..count {
        words[to + i] = words[from + i];
    }
}
