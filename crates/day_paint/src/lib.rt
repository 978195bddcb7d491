// Which spans of a list paint, as strokes; and the pieces of a day that the strokes show: of strokes that rise by rising.rt, of few others by piece.rt, of
// many by minute.rt.
#![tactic(auto)]

pub mod minute;
pub mod piece;
pub mod rising;

ghost use Rattle.std.specs.Prelude.{◌≡◌, ◌+◌, ◌*◌, ◌-◌, ◌<◌, ◌≤◌, length, true};
ghost use Rattle.std.proofs.lemmas.List.Edits.{sets};
ghost use Rattle.codes.specs.Number.{closed_number, span_at};
ghost use Rattle.definition.specs.Day.{simple};
ghost use Rattle.day_paint.specs.Stroke.{stroke_number, strokes_of_run, strokes_from, shown};
ghost use Rattle.day_paint.specs.Piece.{DayLaid};

use codes::{end_of, is_simple, start_of};
use minute::write_painted;
use piece::write_pieces;
use rising::write_rising;

// A stroke is one number: the state, the minute from which it paints, the minute up to which it does. A minute of a day, with the day's
// end, is below 2048.
const START_UNIT: u64 = 2048;

const STATE_UNIT: u64 = START_UNIT * START_UNIT;

// A simple span with its state, as one number.
fn stroke(state: u32, span: u64) -> u64
    requires { simple (span_at span) ≡ true }
    ensures { result ≡ stroke_number state span }
{
    u64::from(state) * STATE_UNIT + start_of(span) * START_UNIT + end_of(span)
}

// Writes the strokes of the run of a state from span i on; answers the place after them.
fn write_run_strokes(
    strokes: &mut [u64],
    k: usize,
    states: &[u32],
    spans: &[u64],
    s: u32,
    i: usize,
) -> usize
    requires { (k + (length states.now - i) ≤ length strokes.old) × (length states.now ≡ length spans.now) }
    ensures { (strokes.new ≡ sets strokes.old k (strokes_of_run states.now spans.now s i (length states.now - i)))
        × (result ≡ k + length (strokes_of_run states.now spans.now s i (length states.now - i))) }
{
    let mut place = k;
    for next in i..states.len() {
        let x = states[next];
        if x != s {
            return place;
        }
        if is_simple(spans[next]) {
            strokes[place] = stroke(x, spans[next]);
            place += 1;
        }
    }
    place
}

// Writes the strokes of a list: its simple spans before the first other one, and those of that one's run; answers how many there are.
pub fn write_strokes(strokes: &mut [u64], states: &[u32], spans: &[u64]) -> usize
    requires { (length states.now ≤ length strokes.old) × (length states.now ≡ length spans.now) }
    ensures { (strokes.new ≡ sets strokes.old 0 (strokes_from states.now spans.now 0 (length states.now)))
        × (result ≡ length (strokes_from states.now spans.now 0 (length states.now))) }
{
    for i in 0..states.len() {
        if !is_simple(spans[i]) {
            return write_run_strokes(strokes, i, states, spans, states[i], i + 1);
        }
        strokes[i] = stroke(states[i], spans[i]);
    }
    states.len()
}

// From so many strokes on a day is painted minute by minute: that takes as long for few strokes as for many.
const MANY: usize = 32;

// Writes the pieces of a day under its strokes, their starts with the day's end behind them, and their states; answers how many there are.
pub fn write_day(starts: &mut [u64], states: &mut [u64], strokes: &[u64]) -> usize
    requires { (length strokes.now < 65536) × (2 * length strokes.now + 2 ≤ length starts.old) × (2 * length strokes.now + 1 ≤ length states.old) }
    ensures { DayLaid (shown closed_number strokes.now) starts.new states.new result × (result ≤ 2 * length strokes.now + 1) }
{
    if strokes.len() >= MANY {
        return write_painted(starts, states, strokes);
    }
    if let Some(count) = write_rising(starts, states, strokes) {
        return count;
    }
    write_pieces(starts, states, strokes)
}
