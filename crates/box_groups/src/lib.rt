// The group of a box, as a list of its boxes: grown dimension after dimension, from the last one up, and emptied. A column is good for a group if the
// boxes listed so far, moved into it, all have the group's value; its boxes are then appended, so that in the end all boxes of the group are listed.
// The first box of the group is the first one that has its value: no column before its own is good.
#![tactic(auto)]

ghost use Rattle.std.specs.Prelude.{◌≡◌, false, true, ℕ, ◌+◌, ◌*◌, ◌≤◌, ◌<◌, length, get_or, take};
ghost use Rattle.std.proofs.lemmas.List.Edits.{sets};
ghost use Rattle.laws.specs.Lists.{All};
ghost use Rattle.paving.specs.Grid.{Room, size_of, width_of, chosen, paint, Cleared};
ghost use Rattle.plain_boxes.specs.Groups.{MarkedGroup};
ghost use Rattle.box_groups.specs.Boxes.{boxes_of, all_are, emptied_at, up, Looked, Growing, Grown};

// Whether some boxes, each so many boxes up, all have the value.
fn all_are(cells: &[u16], boxes: &[u16], value: u16, shift: usize) -> bool
    requires { All (λ b. b < length cells.now) (up shift boxes.now) }
    ensures { result ≡ all_are cells.now value (up shift boxes.now) }
{
    for &number in boxes {
        if cells[usize::from(number) + shift] != value {
            return false;
        }
    }
    true
}

// Lists the first boxes once more, each so many boxes up, from a place on.
fn append(boxes: &mut [u16], count: usize, at: usize, shift: usize)
    requires { (count ≤ at) × (at + count ≤ length boxes.old) × All (λ b. b < 65536) (up shift (take count boxes.old)) }
    ensures { boxes.new ≡ sets boxes.old at (up shift (take count boxes.old)) }
{
    for place in 0..count {
        let number = usize::from(boxes[place]) + shift;
        boxes[at + place] = number as u16;
    }
}

// Takes the marks of some columns away.
fn unmark(marks: &mut [u8], base: usize, width: usize)
    requires { base + width ≤ length marks.old }
    ensures { marks.new ≡ paint (λ _. false) base 0 width marks.old }
{
    marks[base..base + width].fill(0);
}

// Looks at one column: marks it at its place, and if it is good, lists its boxes: the first boxes of the list, so many boxes up. Answers how many
// boxes are listed then.
fn grow_column(
    cells: &[u16],
    marks: &mut [u8],
    boxes: &mut [u16],
    count: usize,
    listed: usize,
    value: u16,
    place: usize,
    shift: usize,
) -> usize
    requires { (count ≤ listed) × (listed + count ≤ length boxes.old) × (place < length marks.old) × (length cells.now ≤ 65536)
        × All (λ b. b < length cells.now) (up shift (take count boxes.old)) }
    ensures { Looked marks.old boxes.old count listed place (up shift (take count boxes.old))
        (all_are cells.now value (up shift (take count boxes.old))) marks.new boxes.new result }
{
    if all_are(cells, &boxes[..count], value, shift) {
        marks[place] = 1;
        append(boxes, count, listed, shift);
        return listed + count;
    }
    marks[place] = 0;
    listed
}

// Grows the first boxes of the list along a dimension, whose columns are `step` boxes apart, from their own column on: marks the good columns and
// lists their boxes. Answers how many boxes are listed then.
fn grow(
    cells: &[u16],
    marks: &mut [u8],
    boxes: &mut [u16],
    count: usize,
    value: u16,
    base: usize,
    width: usize,
    own: usize,
    step: usize,
) -> usize
    requires { (count ≤ length boxes.old) × Growing cells.now (length marks.old) (length boxes.old) (take count boxes.old) value base width own step }
    ensures { (result ≤ length boxes.old)
        × Grown cells.now marks.old (take count boxes.old) value base width own step marks.new (take result boxes.new) }
{
    unmark(marks, base, own);
    marks[base + own] = 1;
    let mut listed = count;
    let mut shift = step;
    for column in own + 1..width {
        listed = grow_column(
            cells,
            marks,
            boxes,
            count,
            listed,
            value,
            base + column,
            shift,
        );
        shift += step;
    }
    listed
}

// Marks and lists the group of the box `first`; answers how many boxes it has. The dimensions have so many columns in all.
fn mark_group(
    cells: &[u16],
    sizes: &[u16],
    marks: &mut [u8],
    boxes: &mut [u16],
    first: usize,
    columns: usize,
) -> usize
    requires room { Room (length cells.now) (length marks.old) sizes.now 4 0 0 }
    requires first_bound { (first < size_of sizes.now 4) × (columns ≡ width_of sizes.now 4) × (size_of sizes.now 4 ≤ length boxes.old) × (length cells.now ≤ 65536)
        × ((q : ℕ) → q < first → get_or cells.now q 0 ≡ get_or cells.now first 0 → ⊥) }
    ensures { MarkedGroup cells.now sizes.now first 4 0 0 marks.old marks.new × (result ≤ length boxes.new)
        × (take result boxes.new ≡ boxes_of sizes.now 4 0 (chosen marks.new sizes.now 4 0)) }
{
    let value = cells[first];
    boxes[0] = first as u16;
    let mut count = 1;
    let mut step = 1;
    let mut block = first;
    let mut base = columns;
    for dimension in 0..4 {
        let width = usize::from(sizes[dimension]);
        base -= width;
        count = grow(
            cells,
            marks,
            boxes,
            count,
            value,
            base,
            width,
            block % width,
            step,
        );
        block /= width;
        step *= width;
    }
    count
}

// Empties some boxes.
fn empty_boxes(cells: &mut [u16], boxes: &[u16])
    requires { All (λ b. b < length cells.old) boxes.now }
    ensures { (q : ℕ) → get_or cells.new q 0 ≡ emptied_at cells.old boxes.now q }
{
    for &number in boxes {
        cells[usize::from(number)] = 0;
    }
}

// Marks the group of the box `first` and empties it. No box before it has its value.
pub fn pop_group(
    cells: &mut [u16],
    sizes: &[u16],
    marks: &mut [u8],
    boxes: &mut [u16],
    first: usize,
    columns: usize,
)
    requires room { Room (length cells.old) (length marks.old) sizes.now 4 0 0 }
    requires first_bound { (first < size_of sizes.now 4) × (columns ≡ width_of sizes.now 4) × (size_of sizes.now 4 ≤ length boxes.old) × (length cells.old ≤ 65536)
        × ((q : ℕ) → q < first → get_or cells.old q 0 ≡ get_or cells.old first 0 → ⊥) }
    ensures { MarkedGroup cells.old sizes.now first 4 0 0 marks.old marks.new
        × Cleared cells.old cells.new sizes.now 4 0 (chosen marks.new sizes.now 4 0) }
{
    let count = mark_group(cells, sizes, marks, boxes, first, columns);
    empty_boxes(cells, &boxes[..count]);
}
