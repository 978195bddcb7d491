// The tests of the limits, each in one place: how many rules, items and boxes a sheet may have, how many entries a list, how many lists there may
// be, how wide a field is, which minutes a day has, and whether a buffer has room.
#![tactic(auto)]

ghost use Rattle.std.specs.Prelude.{◌≡◌, ltb, leb};
ghost use Rattle.definition.specs.Rule.{midnight24};
ghost use Rattle.definition.specs.Sheet.{sheet_limits};

// "Limits go to 256 rules"
pub fn rules_allowed(count: u64) -> bool
    ensures { result ≡ leb count sheet_limits.rules }
{
    count <= 256
}

// "16 items of each sort, 16 spans"
pub fn items_allowed(count: u64) -> bool
    ensures { result ≡ leb count sheet_limits.items }
{
    count <= 16
}

// The widest field of a sheet is "a caller's reference of 32".
pub fn width_over(width: usize) -> bool
    ensures { result ≡ ltb 32 width }
{
    width > 32
}

// "and 4,096 boxes"
pub fn boxes_over(count: u64) -> bool
    ensures { result ≡ ltb sheet_limits.boxes count }
{
    count > 4096
}

// A list passes "32 entries" where one is appended to as many.
pub fn entry_allowed(count: u16) -> bool
    ensures { result ≡ ltb count sheet_limits.entries }
{
    count < 32
}

// "512 distinct non-empty lists over all points"
pub fn lists_over(count: usize) -> bool
    ensures { result ≡ ltb sheet_limits.lists count }
{
    count > 512
}

// "a .. minute (0 to 1439)"
pub fn past_midnight(minute: u64) -> bool
    ensures { result ≡ leb midnight24 minute }
{
    minute >= 1440
}

// "the output buffer is shorter than the result": one that the result fills is not.
pub fn lacks_room(room: usize, size: usize) -> bool
    ensures { result ≡ ltb room size }
{
    room < size
}
