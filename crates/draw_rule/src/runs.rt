// The columns that a rule's ranges cover. Cuts rise, so the columns of a range stand side by side: they are searched once, before the walk over the
// boxes, and kept in a table at the places that the range has in its own.
ghost use Rattle.std.specs.Prelude.{◌+◌, ◌-◌, ◌*◌, ◌≤◌, ◌<◌, length};
ghost use Rattle.tables.specs.Search.{Rising};
ghost use Rattle.tables.specs.Sizes.{range_places};
ghost use Rattle.draw_rule.specs.Update.{Lawful};
ghost use Rattle.draw_rule.specs.Runs.{Placed, RunsUpTo};

use tables::RANGE_PLACES;
use tables::search::place_in;

// Writes the run of one range: its first column, and the column behind its last.
fn find_run(runs: &mut [u16], cuts: &[u16], ranges: &[u16], first: usize, end: usize, at: usize)
    requires at_in_bounds { (at + 1 < length runs.old) × (at + 1 < length ranges.now) }
    requires first_le_end { (first ≤ end) × (end ≤ length cuts.now) × (end - first < 65536) }
    requires rising { Rising cuts.now first end }
    ensures { Placed cuts.now ranges.now runs.old runs.new first end at }
{
    let begin = place_in(cuts, first, end, ranges[at]);
    let stop = place_in(cuts, begin, end, ranges[at + 1]);
    runs[at] = (begin - first) as u16;
    runs[at + 1] = (stop - first) as u16;
}

// Writes the runs of a dimension.
fn find_row(
    runs: &mut [u16],
    sizes: &[u16],
    range_counts: &[u16],
    row_starts: &[u16],
    cuts: &[u16],
    ranges: &[u16],
    dimension: usize,
)
    requires lawful { Lawful sizes.now range_counts.now row_starts.now cuts.now ranges.now }
    requires dimension_in_bounds { (dimension < length sizes.now) × (dimension * range_places + range_places ≤ length runs.old) }
    requires runs_up_to { RunsUpTo sizes.now range_counts.now row_starts.now cuts.now ranges.now runs.old dimension }
    ensures { RunsUpTo sizes.now range_counts.now row_starts.now cuts.now ranges.now runs.new (dimension + 1) }
{
    let count = usize::from(range_counts[dimension]);
    let first = usize::from(row_starts[dimension]);
    let end = first + usize::from(sizes[dimension]);
    for range in 0..count {
        find_run(
            runs,
            cuts,
            ranges,
            first,
            end,
            dimension * RANGE_PLACES + 2 * range,
        );
    }
}

// Writes the runs of all four dimensions.
pub fn find_runs(
    runs: &mut [u16],
    sizes: &[u16],
    range_counts: &[u16],
    row_starts: &[u16],
    cuts: &[u16],
    ranges: &[u16],
)
    requires lawful { Lawful sizes.now range_counts.now row_starts.now cuts.now ranges.now }
    requires in_bounds { (4 ≤ length sizes.now) × (4 * range_places ≤ length runs.old) }
    ensures { RunsUpTo sizes.now range_counts.now row_starts.now cuts.now ranges.now runs.new 4 }
{
    for dimension in 0..4 {
        find_row(
            runs,
            sizes,
            range_counts,
            row_starts,
            cuts,
            ranges,
            dimension,
        );
    }
}
