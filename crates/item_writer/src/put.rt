// Stores fields from a bit on and answers the bit after them: every writer is a chain of these. Fields that stand one behind the other are put together
// before they are stored: storing costs by the times that it is done, not by the bits.
ghost use Rattle.std.specs.Prelude.{◌++◌, ◌+◌, ◌≤◌, length};
ghost use Rattle.definition.specs.Field.{bits};
ghost use Rattle.item_writer.specs.Written.{Carries, Fits, RoomFor, Wrote};

use writer::joined;

pub fn put(out: &mut [u8], at: usize, width: usize, value: u64) -> usize
    requires fits { Fits width value }
    requires room_for { RoomFor (length out.old) at (bits width value) }
    ensures { Wrote out.old at (bits width value) out.new result }
{
    writer::put_field(out, at, width, value);
    at + width
}

// Fields that stand one behind the other, as one number.
#[derive(Clone, Copy)]
pub struct Fields {
    pub width: usize,
    pub value: u64,
}

impl Fields {
    // One field.
    pub fn new(width: usize, value: u64) -> Fields
        requires { Fits width value }
        ensures { Carries result.width result.value width (bits width value) }
    {
        Fields { width, value }
    }

    // These fields and one behind them.
    pub fn then(self, width: usize, value: u64) -> Fields
        requires { Fits self.width self.value × Fits width value × (self.width + width ≤ 56) }
        ensures { Carries result.width result.value (self.width + width) (bits self.width self.value ++ bits width value) }
    {
        Fields {
            width: self.width + width,
            value: joined(self.value, width, value),
        }
    }

    // Stores them.
    pub fn put(self, out: &mut [u8], at: usize) -> usize
        requires fits { Fits self.width self.value }
        requires room_for { RoomFor (length out.old) at (bits self.width self.value) }
        ensures { Wrote out.old at (bits self.width self.value) out.new result }
    {
        put(out, at, self.width, self.value)
    }
}
