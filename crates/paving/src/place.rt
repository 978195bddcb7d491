// How many cells there are.
ghost use Rattle.std.specs.Prelude.{◌≡◌, ℕ, ◌≤◌, ◌<◌, ◌^◌, length, get_or};
ghost use Rattle.paving.specs.Grid.{size_of};

// How many cells lie below a box with some dimensions left.
pub fn size_of(sizes: &[u16], dims_left: usize) -> usize
    requires { (dims_left ≤ length sizes.now) × ((k : ℕ) → k < dims_left → 1 ≤ get_or sizes.now k 0) × (size_of sizes.now dims_left < 2 ^ 64) }
    ensures { result ≡ size_of sizes.now dims_left }
{
    let mut size = 1;
    for &width in &sizes[..dims_left] {
        size = usize::from(width) * size;
    }
    size
}
