// The pieces of a day of many strokes: they are painted one over another, each with its number, on the minutes of the day, and the minutes are
// read as pieces. Rests on piece.rt for what a stroke is.
ghost use Rattle.std.specs.Prelude.{◌≡◌, ℕ, ◌+◌, ◌*◌, ◌<◌, ◌≤◌, length, get_or};
ghost use Rattle.codes.specs.Number.{closed_number};
ghost use Rattle.day_paint.specs.Stroke.{shown};
ghost use Rattle.day_paint.specs.Piece.{DayLaid};
ghost use Rattle.day_paint.specs.Minute.{number_state, filled_at, changes, Painted};

use crate::piece::{DAY_END, put_piece, stroke_end, stroke_start, stroke_state};
use codes::CLOSED;

// How many minutes a day has.
const MINUTES: usize = 1440;

// The minutes of a day, none of them painted.
fn bare_minutes() -> [u16; 1440]
    ensures { (1440 ≡ length result) × ((m : ℕ) → get_or result m 0 ≡ 0) }
{
    [0u16; 1440]
}

// Paints minutes a up to b with a number.
fn fill(minutes: &mut [u16], a: usize, b: usize, number: u16)
    requires { b ≤ length minutes.old }
    ensures { (m : ℕ) → get_or minutes.new m 0 ≡ filled_at minutes.old a b number m }
{
    for minute in a..b {
        minutes[minute] = number;
    }
}

// Paints strokes on bare minutes, one over another: each minute gets the number of the last stroke that covers it, counted from 1.
fn paint(minutes: &mut [u16], strokes: &[u64])
    requires bounds { (length strokes.now < 65536) × (1440 ≤ length minutes.old) }
    requires by_index { (m : ℕ) → get_or minutes.old m 0 ≡ 0 }
    ensures { Painted strokes.now (length strokes.now) minutes.new }
{
    for (i, x) in strokes.iter().enumerate() {
        let start = stroke_start(*x);
        let end = stroke_end(*x).min(DAY_END);
        fill(minutes, start as usize, end as usize, (i + 1) as u16);
    }
}

// The state of a number.
fn number_state(strokes: &[u64], number: u16) -> u64
    requires { number ≤ length strokes.now }
    ensures { result ≡ number_state strokes.now number }
{
    if number == 0 {
        return CLOSED;
    }
    stroke_state(strokes[usize::from(number) - 1])
}

// The first minute from i on that has another number, or the day's end.
fn run_end(minutes: &[u16], number: u16, i: usize) -> usize
    requires { (i ≤ 1440) × (1440 ≤ length minutes.now) }
    ensures { (i ≤ result) × (result ≤ 1440) × ((m : ℕ) → i ≤ m → m < result → get_or minutes.now m 0 ≡ number)
        × (result < 1440 → get_or minutes.now result 0 ≡ number → ⊥) }
{
    for next in i..MINUTES {
        if minutes[next] != number {
            return next;
        }
    }
    MINUTES
}

// Writes the pieces of one number, their starts with the day's end behind them, and their states; answers how many there are.
fn write_minutes(starts: &mut [u64], states: &mut [u64], minutes: &[u16], strokes: &[u64]) -> usize
    requires in_bounds { (1440 ≤ length minutes.now) × (changes minutes.now 1439 + 2 ≤ length starts.old) × (changes minutes.now 1439 + 1 ≤ length states.old) }
    requires by_index { (m : ℕ) → get_or minutes.now m 0 ≤ length strokes.now }
    ensures { DayLaid (λ m. number_state strokes.now (get_or minutes.now m 0)) starts.new states.new result × (result ≤ changes minutes.now 1439 + 1) }
{
    let mut place: usize = 0;
    let mut from: usize = 0;
    // Each turn takes all minutes of one number, so no `for` counts `from`.
    while from < MINUTES {
        let number = minutes[from];
        let state = number_state(strokes, number);
        place = put_piece(starts, states, place, from as u64, state);
        from = run_end(minutes, number, from + 1);
    }
    starts[place] = DAY_END;
    place
}

// Writes the pieces of a day under its strokes, their starts with the day's end behind them, and their states; answers how many there are.
pub fn write_painted(starts: &mut [u64], states: &mut [u64], strokes: &[u64]) -> usize
    requires { (length strokes.now < 65536) × (2 * length strokes.now + 2 ≤ length starts.old) × (2 * length strokes.now + 1 ≤ length states.old) }
    ensures { DayLaid (shown closed_number strokes.now) starts.new states.new result × (result ≤ 2 * length strokes.now + 1) }
{
    let mut minutes = bare_minutes();
    paint(&mut minutes, strokes);
    write_minutes(starts, states, &minutes, strokes)
}
