// A day as pieces of one state, in rising order. Strokes are painted one over another, so they are looked at from the last one back: where a
// stroke shows, those before it are not looked at, and no cut has to be sorted.
ghost use Rattle.std.specs.Prelude.{◌≡◌, [], ◌∷◌, ◌++◌, map, ◌+◌, ◌*◌, ◌<◌, ◌≤◌, length, set, MatchOption};
ghost use Rattle.std.proofs.lemmas.List.Edits.{sets};
ghost use Rattle.day_paint.specs.Stroke.{stroke_state, stroke_start, stroke_end};
ghost use Rattle.day_paint.specs.Piece.{piece_start, piece_state, meets, last_meeting, pieces, day_pieces};

use crate::{START_UNIT, STATE_UNIT};
use codes::CLOSED;

// The minute at which a day ends.
pub const DAY_END: u64 = 1440;

// A stroke's state.
pub fn stroke_state(x: u64) -> u64
    ensures { result ≡ stroke_state x }
{
    x / STATE_UNIT
}

// The minute from which a stroke paints.
pub fn stroke_start(x: u64) -> u64
    ensures { result ≡ stroke_start x }
{
    x / START_UNIT % START_UNIT
}

// The minute up to which a stroke paints.
pub fn stroke_end(x: u64) -> u64
    ensures { result ≡ stroke_end x }
{
    x % START_UNIT
}

// Whether a stroke meets the range from a up to b.
fn meets_range(x: u64, a: u64, b: u64) -> bool
    ensures { result ≡ meets x a b }
{
    a.max(stroke_start(x)) < stroke_end(x).min(b)
}

// The last of the first i strokes that meets a range.
fn last_meeting(strokes: &[u64], i: usize, a: u64, b: u64) -> Option<usize>
    requires { i ≤ length strokes.now }
    ensures { MatchOption result (last_meeting strokes.now i a b ≡ 0) (λ last. last_meeting strokes.now i a b ≡ last + 1) }
{
    for next in (0..i).rev() {
        if meets_range(strokes[next], a, b) {
            return Some(next);
        }
    }
    None
}

// Writes a piece's start and its state; answers the place after it.
pub fn put_piece(
    starts: &mut [u64],
    states: &mut [u64],
    place: usize,
    start: u64,
    state: u64,
) -> usize
    requires { (place < length starts.old) × (place < length states.old) }
    ensures { (starts.new ≡ set starts.old place start) × (states.new ≡ set states.old place state) × (result ≡ place + 1) }
{
    starts[place] = start;
    states[place] = state;
    place + 1
}

// Writes the pieces of a range under the first i strokes, their starts and their states; answers the place after them. What lies to the left of a
// stroke is written by a call, what lies to its right by going on. So calls nest at most as deep as there are strokes.
fn write_range(
    starts: &mut [u64],
    states: &mut [u64],
    at: usize,
    strokes: &[u64],
    i: usize,
    a: u64,
    b: u64,
) -> usize
    requires { (i ≤ length strokes.now) × (at + length (pieces strokes.now i a b) ≤ length starts.old)
        × (at + length (pieces strokes.now i a b) ≤ length states.old) }
    ensures { (starts.new ≡ sets starts.old at (map piece_start (pieces strokes.now i a b)))
        × (states.new ≡ sets states.old at (map piece_state (pieces strokes.now i a b)))
        × (result ≡ at + length (pieces strokes.now i a b)) }
{
    let mut place = at;
    let mut below = i;
    let mut from = a;
    // Each turn takes what one stroke shows, so no `for` counts the minutes.
    while from < b {
        let Some(last) = last_meeting(strokes, below, from, b) else {
            return put_piece(starts, states, place, from, CLOSED);
        };
        let x = strokes[last];
        let start = stroke_start(x);
        if from < start {
            place = write_range(starts, states, place, strokes, last, from, start);
            below = last + 1;
            from = start;
            continue;
        }
        place = put_piece(starts, states, place, from, stroke_state(x));
        below = last;
        from = stroke_end(x).min(b);
    }
    place
}

// Writes the pieces of a day under its strokes, their starts with the day's end behind them, and their states; answers how many there are.
pub fn write_pieces(starts: &mut [u64], states: &mut [u64], strokes: &[u64]) -> usize
    requires { (2 * length strokes.now + 2 ≤ length starts.old) × (2 * length strokes.now + 1 ≤ length states.old) }
    ensures { (starts.new ≡ sets starts.old 0 (map piece_start (day_pieces strokes.now (length strokes.now)) ++ 1440 ∷ []))
        × (states.new ≡ sets states.old 0 (map piece_state (day_pieces strokes.now (length strokes.now))))
        × (result ≡ length (day_pieces strokes.now (length strokes.now))) × (result ≤ 2 * length strokes.now + 1) }
{
    let m = write_range(starts, states, 0, strokes, strokes.len(), 0, DAY_END);
    starts[m] = DAY_END;
    m
}
