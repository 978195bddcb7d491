// Sets of intervals back to items, the writing half of the Rust's `canonical_date.rs`, once for every dimension: the marked columns'
// intervals, touching ones joined, as first and last values start, end, start, end .. in a lent slice; a full dimension has none.
// The interval of column x goes from cut x of the dimension's row to the next cut.
#![tactic(auto)]

ghost use Rattle.std.specs.Prelude.{◌≡◌, map, ◌+◌, ◌-◌, ◌*◌, ◌≤◌, ◌<◌, length, get_or, set};
ghost use Rattle.std.proofs.lemmas.List.Edits.{sets};
ghost use Rattle.date_items.specs.Runs.{mark_at, run_end, cut_of, Cuts, runs_from, as_item, items_at};
ghost use Rattle.paving.specs.Grid.{marks_from};
ghost use Rattle.tables.specs.Items.{numbers};

// The first column from `column` on that isn't marked, or the width.
fn run_end(marks: &[u8], base: usize, width: usize, column: usize) -> usize
    requires { (column ≤ width) × (base + width ≤ length marks.now) }
    ensures { result ≡ run_end (mark_at marks.now base) column (width - column) }
{
    for end in column..width {
        if marks[base + end] != 1 {
            return end;
        }
    }
    width
}

// The first column from `column` on that is marked, or the width.
fn run_start(marks: &[u8], base: usize, width: usize, column: usize) -> usize
    requires { (column ≤ width) × (base + width ≤ length marks.now) }
    ensures { (column ≤ result) × (result ≤ width) × (result < width → get_or marks.now (base + result) 0 ≡ 1)
        × (marks_from marks.now base width column ≡ marks_from marks.now base width result) }
{
    for start in column..width {
        if marks[base + start] == 1 {
            return start;
        }
    }
    width
}

// Writes a run, from its first column up to `end`, excluded, as an item.
fn put_run(cuts: &[u16], row: usize, start: usize, end: usize, ends: &mut [u16], at: usize)
    requires start_in_bounds { (row + start < length cuts.now) × (row + end < length cuts.now) }
    requires bound { (1 ≤ cut_of cuts.now row end) × (at + 2 ≤ length ends.old) }
    ensures { ends.new ≡ set (set ends.old at (cut_of cuts.now row start)) (at + 1) (cut_of cuts.now row end - 1) }
{
    ends[at] = cuts[row + start];
    ends[at + 1] = cuts[row + end] - 1;
}

// Writes the runs of the marked columns from `column` on as items; answers how many.
fn put_runs(
    marks: &[u8],
    base: usize,
    width: usize,
    cuts: &[u16],
    row: usize,
    ends: &mut [u16],
    at: usize,
    column: usize,
) -> usize
    requires column_le_width { (column ≤ width) × (base + width ≤ length marks.now) }
    requires cuts { Cuts cuts.now row width }
    requires column_in_bounds { at + 2 * length (runs_from marks.now base width cuts.now row column) ≤ length ends.old }
    ensures { (result ≡ length (runs_from marks.now base width cuts.now row column))
        × (ends.new ≡ sets ends.old at (numbers (map as_item (runs_from marks.now base width cuts.now row column)))) }
{
    let mut count = 0;
    let mut start = run_start(marks, base, width, column);
    // From run to run, not column by column: `for` is no plainer.
    while start < width {
        let end = run_end(marks, base, width, start + 1);
        put_run(cuts, row, start, end, ends, at + 2 * count);
        count += 1;
        start = run_start(marks, base, width, end);
    }
    count
}

// Writes the items of a dimension; answers how many. The end of the run at its first column tells whether the dimension is full.
pub fn put_items(
    marks: &[u8],
    base: usize,
    width: usize,
    cuts: &[u16],
    row: usize,
    ends: &mut [u16],
    at: usize,
) -> usize
    requires width_in_bounds { base + width ≤ length marks.now }
    requires cuts { Cuts cuts.now row width }
    requires row_in_bounds { at + 2 * length (items_at marks.now base width cuts.now row) ≤ length ends.old }
    ensures { (result ≡ length (items_at marks.now base width cuts.now row))
        × (ends.new ≡ sets ends.old at (numbers (items_at marks.now base width cuts.now row))) }
{
    let end = run_end(marks, base, width, 0);
    if end == width {
        return 0;
    }
    if end == 0 {
        return put_runs(marks, base, width, cuts, row, ends, at, 0);
    }
    put_run(cuts, row, 0, end, ends, at);
    let behind = put_runs(marks, base, width, cuts, row, ends, at + 2, end);
    behind + 1
}
