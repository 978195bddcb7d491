// Whether all lists are short.
ghost use Rattle.std.specs.Prelude.{◌≡◌, true, ◌*◌, ◌≤◌, length};
ghost use Rattle.tables.specs.Sizes.{list_places};
ghost use Rattle.number_lists.specs.Short.{AllShort};

// Whether none of the first `used` lists has more than 4 rules. Only how much is cleared hangs on it.
pub fn all_short(lists: &[u16], used: usize) -> bool
    requires { used * list_places ≤ length lists.now }
    ensures { result ≡ true → AllShort lists.now used }
{
    for place in 0..used {
        if lists[place * tables::LIST_PLACES] > 4 {
            return false;
        }
    }
    true
}
