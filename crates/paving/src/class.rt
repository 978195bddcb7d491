// The class of a day number, by a table that holds each day's first class.
ghost use Rattle.std.specs.Prelude.{◌≡◌, get_or};
ghost use Rattle.paving.specs.Grid.{lowest_class, in_class};

// The first class of a day number, 0 past the table.
fn class_of(classes: &[u8], value: u16) -> u8
    ensures { result ≡ get_or classes.now value 0 }
{
    classes.get(usize::from(value)).copied().unwrap_or(0)
}

// A class holds the days whose first class is this one, the class itself, or one between them.
fn lowest_class(class: u8) -> u8
    ensures { result ≡ lowest_class class }
{
    match class {
        3 | 4 => 3,
        _ => 1,
    }
}

// Whether a day number is of a class.
pub fn in_class(classes: &[u8], class: u8, value: u16) -> bool
    ensures { result ≡ in_class classes.now class value }
{
    let own = class_of(classes, value);
    lowest_class(class) <= own && own <= class
}
