// Numbered columns, and the laws of popping groups from them: a grid of any number of dimensions in one flat pool of cells.
// A box of the first dimensions has a number, `box_index`, and some dimensions left below it. The box below it in column j has the number
// box_index * width + j, and a box with no dimension left is a cell; the specs call such a box a node.
// The sizes stand last dimension first, so that `dims_left` counts down to them; the marks of a dimension, one for each interval, stand
// from `base` on, those of the later dimensions after them.
#![tactic(auto)]

pub mod class;
pub mod place;
pub mod row;
