// The pieces of a day whose strokes rise: each begins where the one before it ends, or later. Then no stroke covers another, and the pieces are
// the strokes with the gaps between them. Rests on piece.rt for what a stroke is.
ghost use Rattle.std.specs.Prelude.{◌≡◌, ◌+◌, ◌*◌, ◌<◌, ◌≤◌, length, set, IfSome};
ghost use Rattle.codes.specs.Number.{closed_number};
ghost use Rattle.day_paint.specs.Stroke.{shown};
ghost use Rattle.day_paint.specs.Piece.{DayLaid};

use crate::piece::{DAY_END, put_piece, stroke_end, stroke_start, stroke_state};
use codes::CLOSED;

// Writes a gap from a up to b, where there is one; answers the place after it.
fn put_gap(starts: &mut [u64], states: &mut [u64], place: usize, a: u64, b: u64) -> usize
    requires { (place < length starts.old) × (place < length states.old) }
    ensures { (a < b → (starts.new ≡ set starts.old place a) × (states.new ≡ set states.old place closed_number) × (result ≡ place + 1))
        × (b ≤ a → (starts.new ≡ starts.old) × (states.new ≡ states.old) × (result ≡ place)) × (result ≤ place + 1) }
{
    if a < b {
        return put_piece(starts, states, place, a, CLOSED);
    }
    place
}

// Writes the pieces of a day under strokes that rise, their starts with the day's end behind them, and their states; answers how many there are, or
// nothing where the strokes don't rise.
pub fn write_rising(starts: &mut [u64], states: &mut [u64], strokes: &[u64]) -> Option<usize>
    requires { (2 * length strokes.now + 2 ≤ length starts.old) × (2 * length strokes.now + 1 ≤ length states.old) }
    ensures { IfSome result (λ count. DayLaid (shown closed_number strokes.now) starts.new states.new count × (count ≤ 2 * length strokes.now + 1)) }
{
    let mut place: usize = 0;
    let mut from: u64 = 0;
    for x in strokes {
        let start = stroke_start(*x);
        let end = stroke_end(*x);
        if start < from || end <= start || DAY_END < end {
            return None;
        }
        let next = put_gap(starts, states, place, from, start);
        place = put_piece(starts, states, next, start, stroke_state(*x));
        from = end;
    }
    let last = put_gap(starts, states, place, from, DAY_END);
    starts[last] = DAY_END;
    Some(last)
}
