// The ladder of a list of thresholds: spread over all steps, and a cell for each few metres.
ghost use Rattle.std.specs.Prelude.{true, ◌≡◌, ◌≤◌, ◌<◌, length};
ghost use Rattle.model.specs.Limits.{max_thresholds};
ghost use Rattle.edge_pair.specs.Offsets.{Ordered};
ghost use Rattle.range_query.specs.Ladder.{last_step, ladder_length, Level, LadderOf};
ghost use Rattle.range_query.specs.Spreading.{SpreadSteps, Skipped, Alone, Names, CellsFilled, PlacesFilled};

use crate::lookup::{
    BY_STEP, CELLS, EXACT, FIRST_CELL, KIND_AT, LADDER, LAST_CELL, LAST_STEP, SHIFT_AT, STEPS,
    WIDEST_AT, read_shift, width_of,
};

// Spreads the thresholds over all steps: behind the greatest it is repeated.
fn spread_steps(thresholds: &[u32], ladder: &mut [u32])
    requires { (1 ≤ length thresholds.now) × (length ladder.old ≡ ladder_length) }
    ensures { SpreadSteps thresholds.now max_thresholds ladder.new }
{
    let last = thresholds.len() - 1;
    for k in 0..STEPS {
        ladder[k] = thresholds[k.min(last)];
    }
}

// The least difference of two neighbouring thresholds, and the greatest number where there is one threshold alone.
fn least_gap(thresholds: &[u32]) -> u32 {
    let gaps = thresholds.windows(2).map(|two| two[0].abs_diff(two[1]));
    gaps.min().unwrap_or(u32::MAX)
}

// The greatest difference of two neighbouring thresholds, or the first threshold.
fn widest_gap(thresholds: &[u32]) -> u32 {
    let mut gap = 0;
    let mut before = 0;
    for next in thresholds {
        gap = gap.max(next.saturating_sub(before));
        before = *next;
    }
    gap
}

// The least shift up to 31 after which so many metres are below an end.
fn least_shift(metres: u32, end: u32) -> u32 {
    (0..31).find(|shift| metres >> *shift < end).unwrap_or(31)
}

// The shift by which no two thresholds are in one cell, if there is such a shift, and else that of the smallest cells up to the greatest
// threshold. The cells of the first are not wider than the least gap, and the last of them starts behind all thresholds but one.
fn shift_for(thresholds: &[u32]) -> u32 {
    let count = thresholds.len();
    if count < 2 {
        return 31;
    }
    let apart = least_shift(least_gap(thresholds), 2);
    let smallest = least_shift(thresholds[count - 1], CELLS as u32);
    let without_last = least_shift(thresholds[count - 2], LAST_CELL as u32);
    if without_last <= apart {
        apart
    } else {
        smallest
    }
}

// The first step from number c on that is not below so many metres, or the end.
fn skip(ladder: &[u32], metres: u64, c: usize, end: usize) -> usize
    requires { (length ladder.now ≡ ladder_length) × (c ≤ end) × (end ≤ max_thresholds) }
    ensures { Skipped ladder.now metres c end result }
{
    (c..end)
        .find(|k| metres <= ladder[*k] as u64)
        .unwrap_or(end)
}

// True only if every threshold behind number c admits whatever lies in a cell, which has an end or none. The last threshold has number
// last.
fn is_alone(ladder: &[u32], last: usize, c: usize, end: Option<u64>) -> bool
    requires { (length ladder.now ≡ ladder_length) × (last ≤ last_step) × (c ≤ last) }
    ensures { result ≡ true → Level ladder.now → Alone ladder.now last c end }
{
    c == last || end.is_some_and(|end| end <= ladder[c + 1] as u64)
}

// What a cell holds: the number of the one threshold that may part what lies in it, or that of all steps. It is no Option, since the
// cell is one number of the list lent.
fn named_step(ladder: &[u32], last: usize, c: usize, end: Option<u64>) -> usize
    requires { (length ladder.now ≡ ladder_length) × (last ≤ last_step) × (c ≤ last) }
    ensures { Names ladder.now last c end result }
{
    if is_alone(ladder, last, c, end) {
        c
    } else {
        STEPS
    }
}

// Writes cells that name a threshold or none, by the steps and the shift, and tells so.
fn fill_cells(last: usize, ladder: &mut [u32]) -> u32
    requires { (length ladder.old ≡ ladder_length) × (last ≤ last_step) }
    ensures { CellsFilled last ladder.old result ladder.new }
{
    let width = width_of(read_shift(ladder));
    let mut c = 0;
    let mut start: u64 = 0;
    for k in 0..CELLS {
        c = skip(ladder, start, c, last);
        let next = start + width;
        let end = if k == LAST_CELL { None } else { Some(next) };
        let step = named_step(ladder, last, c, end);
        ladder[FIRST_CELL + k] = step as u32;
        start = next;
    }
    BY_STEP
}

// Writes a cell for each metre by the steps.
fn fill_places(ladder: &mut [u32])
    requires { length ladder.old ≡ ladder_length }
    ensures { PlacesFilled ladder.old ladder.new }
{
    let mut c = 0;
    for k in 0..CELLS {
        c = skip(ladder, k as u64, c, STEPS);
        ladder[FIRST_CELL + k] = c as u32;
    }
}

// Writes the cells, and tells what they are by a number, since it is put into the list lent.
fn fill(last: usize, ladder: &mut [u32]) -> u32
    requires { (length ladder.old ≡ ladder_length) × (last ≤ last_step) }
    ensures { CellsFilled last ladder.old result ladder.new }
{
    if (ladder[LAST_STEP] as usize) < LAST_CELL {
        fill_places(ladder);
        EXACT
    } else {
        fill_cells(last, ladder)
    }
}

// Makes the ladder of at most as many thresholds as there may be, in rising order: the steps, the shift, what the cells are, and
// the cells. Nothing is written if the list lent is not as long as a ladder.
pub fn spread(thresholds: &[u32], ladder: &mut [u32])
    ensures { (length ladder.new ≡ length ladder.old) × (length ladder.old ≡ ladder_length → 1 ≤ length thresholds.now → length thresholds.now ≤ max_thresholds → Ordered thresholds.now → LadderOf thresholds.now ladder.new) }
{
    if ladder.len() != LADDER || thresholds.is_empty() || STEPS < thresholds.len() {
        return;
    }
    spread_steps(thresholds, ladder);
    ladder[WIDEST_AT] = widest_gap(thresholds);
    ladder[SHIFT_AT] = shift_for(thresholds);
    ladder[KIND_AT] = fill(thresholds.len() - 1, ladder);
}
