// The fold of a checked sheet, stage after stage: the rules before the first stopper in tables and the dimensions cut at their ranges (11, 5), a
// list for each box (6, 14), pages of the folded rules, and these written before the rules that are left (13, 7). From normalize/mod.rs. `Engine` chooses
// between two engines for what is done over boxes; no contract mentions it.
#![tactic(auto)]

pub mod boxes;
mod columns_engine;
mod plain_engine;
mod written;

ghost use Rattle.std.specs.Prelude.{◌*◌, ◌^◌, ◌≤◌, ◌<◌, length};
ghost use Rattle.tables.specs.Sizes.{row_places};
ghost use Rattle.forms.specs.Form.{as_form};
ghost use Rattle.sheet.specs.Parts.{Readings};
ghost use Rattle.normalize.specs.Folds.{Folds};

use answers::Folded;
use boxes::fold_boxes;
use fold_write::rules_left;
use forms::Form;
use prepare::prepare;
use tables::lent::{Cuts, DrainedRules};

// What works over boxes: nested columns, or boxes alone, which is made to be read in an afternoon. Both answer alike.
#[derive(Clone, Copy, Debug, PartialEq, Eq)]
pub enum Engine {
    Columns,
    Plain,
}

// Drains the rules and cuts the dimensions, in the tables that are lent; answers 11 or 5, or folds the boxes.
fn fold_rules_in(
    form: Form,
    sheet: &[u8],
    begins: &[usize],
    count: usize,
    end: usize,
    out: &mut [u8],
    states: &mut [u32],
    span_counts: &mut [u8],
    spans: &mut [u64],
    replacing: &mut [u8],
    range_counts: &mut [u16],
    ranges: &mut [u16],
    cuts: &mut [u16],
    engine: Engine,
) -> Folded
    requires readings { Readings (as_form form) sheet.now begins.now count end }
    requires rule_room { (count ≤ length states.old) × (count ≤ length span_counts.old) × (count * 16 ≤ length spans.old) × (count ≤ length replacing.old) }
    requires range_room { (count * 4 ≤ length range_counts.old) × (count * 256 ≤ length ranges.old) × (4 * row_places count ≤ length cuts.old) }
    ensures { Folds (as_form form) sheet.now out.old result out.new }
{
    let mut row_starts = [0u16; 4];
    let mut sizes = [0u16; 4];
    let prepared = prepare(
        form,
        sheet,
        begins,
        count,
        states,
        span_counts,
        spans,
        replacing,
        range_counts,
        ranges,
        &mut row_starts,
        &mut sizes,
        cuts,
    );
    match prepared {
        Ok(drained) => {
            let places = drained.rules * 16;
            let left = rules_left(begins, drained.rules, count, end, drained.why);
            let rules = DrainedRules {
                states: &states[..drained.rules],
                span_counts: &span_counts[..drained.rules],
                spans: &spans[..places],
                replacing,
                range_counts,
                ranges,
            };
            let cuts = Cuts {
                row_starts: &row_starts,
                sizes: &sizes,
                cuts,
            };
            fold_boxes(form, sheet, left, out, rules, cuts, engine)
        }
        Err(refusal) => Folded::refused(refusal),
    }
}

// The same in tables of its own, for so many rules: their spans, the counts of their ranges, the ranges, and the rows of cuts.
#[inline(never)]
fn fold_tabled<
    const RULES: usize,
    const SPANS: usize,
    const COUNTS: usize,
    const RANGES: usize,
    const CUTS: usize,
>(
    form: Form,
    sheet: &[u8],
    begins: &[usize],
    count: usize,
    end: usize,
    out: &mut [u8],
    engine: Engine,
) -> Folded
    requires readings { Readings (as_form form) sheet.now begins.now count end }
    requires room { (count ≤ RULES) × (count * 16 ≤ SPANS) × (count * 4 ≤ COUNTS) × (count * 256 ≤ RANGES) × (4 * row_places count ≤ CUTS) }
    requires small { (RULES < 2 ^ 32) × (SPANS < 2 ^ 32) × (COUNTS < 2 ^ 32) × (RANGES < 2 ^ 32) × (CUTS < 2 ^ 32) }
    ensures { Folds (as_form form) sheet.now out.old result out.new }
{
    let mut states = [0u32; RULES];
    let mut span_counts = [0u8; RULES];
    let mut spans = [0u64; SPANS];
    let mut replacing = [0u8; RULES];
    let mut range_counts = [0u16; COUNTS];
    let mut ranges = [0u16; RANGES];
    let mut cuts = [0u16; CUTS];
    fold_rules_in(
        form,
        sheet,
        begins,
        count,
        end,
        out,
        &mut states,
        &mut span_counts,
        &mut spans,
        &mut replacing,
        &mut range_counts,
        &mut ranges,
        &mut cuts,
        engine,
    )
}

// Folds the rules of a checked sheet, in tables for so many of them or for more (by a match, since a const argument can't be computed), by the one engine or the other: the answer is the same.
pub fn fold_rules(
    form: Form,
    sheet: &[u8],
    begins: &[usize],
    count: usize,
    end: usize,
    out: &mut [u8],
    engine: Engine,
) -> Folded
    requires { Readings (as_form form) sheet.now begins.now count end }
    ensures { Folds (as_form form) sheet.now out.old result out.new }
{
    match count {
        0..=4 => fold_tabled::<4, 64, 16, 1024, 1032>(form, sheet, begins, count, end, out, engine),
        5..=32 => fold_tabled::<32, 512, 128, 8192, 8200>(
            form, sheet, begins, count, end, out, engine,
        ),
        33..=64 => fold_tabled::<64, 1024, 256, 16384, 16392>(
            form, sheet, begins, count, end, out, engine,
        ),
        _ => fold_tabled::<256, 4096, 1024, 65536, 65544>(
            form, sheet, begins, count, end, out, engine,
        ),
    }
}
