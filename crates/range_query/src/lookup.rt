// The first step of a ladder that admits so many metres, looked up by its cell or by halving, with no branch on what is found.
ghost use Rattle.std.specs.Prelude.{cond, List, ◌≡◌, ℕ, ◌+◌, ◌^◌, ◌≤◌, ◌<◌, leb, ltb, length, get_or};
ghost use Rattle.model.specs.Limits.{max_thresholds};
ghost use Rattle.range_query.specs.Ladder.{shift_end, ladder_length, shift_of, cell_of, cells_of, narrowed, by_halves_of, by_steps_of, place_in, found_in, bucket_in, LadderOf};

use model::Thresholds;

// The thresholds are spread over as many steps as there may be thresholds.
pub const STEPS: usize = Thresholds::MAX_THRESHOLDS;

// The step with the greatest threshold.
pub const LAST_STEP: usize = STEPS - 1;

// Behind the steps stand the widest gap between two thresholds or before the first, a shift, what the cells are, and the cells. Where the
// greatest threshold is small there is a cell for each metre, the last one without end: the number of steps that do not admit so many
// metres. Else there is a cell for each 2^shift metres, the last one without end: the number of the one threshold that may part what
// lies in the cell, or the number of all steps where several may.
pub const WIDEST_AT: usize = STEPS;

pub const SHIFT_AT: usize = WIDEST_AT + 1;

pub const KIND_AT: usize = SHIFT_AT + 1;

pub const FIRST_CELL: usize = KIND_AT + 1;

pub const CELLS: usize = 8192;

pub const LADDER: usize = FIRST_CELL + CELLS;

// Cells have one step each, or tell that one does not do.
pub const BY_STEP: u32 = 1;

// There is a cell for each metre.
pub const EXACT: u32 = 2;

pub const LAST_CELL: usize = CELLS - 1;

// A cell is of 2^31 metres at most.
pub const SHIFT_END: u32 = 32;

// What the cells of a ladder are, which is read of it once.
#[derive(Clone, Copy)]
pub enum Cells {
    // There is one for each metre.
    EachMetre,
    // There is one for each 2^shift metres.
    Wide(u32),
}

// The metres of a cell.
pub(crate) fn width_of(shift: u32) -> u64
    requires { shift < shift_end }
    ensures { (result ≡ 2 ^ shift) × (1 ≤ result) × (result ≤ 2147483648) }
{
    1u64 << shift
}

// The cell of 2^shift metres that so many metres lie in: the last one has no end.
#[tactic(auto, unfolding(crate::specs::Ladder::cell_of))]
pub(crate) fn cell_of(metres: u64, shift: u32) -> usize
    requires { shift < shift_end }
    ensures { result ≡ cell_of shift metres }
{
    (metres >> shift).min(LAST_CELL as u64) as usize
}

// The shift of the cells of a ladder.
pub(crate) fn read_shift(ladder: &[u32]) -> u32
    requires { length ladder.now ≡ ladder_length }
    ensures { result ≡ shift_of ladder.now }
{
    ladder[SHIFT_AT] % SHIFT_END
}

// What the cells of a ladder are.
#[tactic(auto, unfolding(crate::specs::Ladder::cells_of))]
pub(crate) fn read_cells(ladder: &[u32]) -> Cells
    requires { length ladder.now ≡ ladder_length }
    ensures { result ≡ cells_of ladder.now }
{
    if ladder[KIND_AT] == EXACT {
        Cells::EachMetre
    } else {
        Cells::Wide(read_shift(ladder))
    }
}

// So many steps are passed if the last of them does not admit d.
fn passed(step: u32, d: u64, half: usize) -> usize
    ensures { result ≡ cond (ltb step d) half 0 }
{
    if (step as u64) < d { half } else { 0 }
}

// Halves the steps among which the first that admits d is looked for.
#[tactic(auto, unfolding(crate::specs::Ladder::narrowed))]
fn narrow(ladder: &[u32], d: u64, half: usize, pos: usize) -> usize
    requires { (length ladder.now ≡ ladder_length) × (1 ≤ half) × (pos + half ≤ max_thresholds) }
    ensures { (result ≡ narrowed ladder.now d half pos) × (result ≤ pos + half) }
{
    pos + passed(ladder[pos + half - 1], d, half)
}

// The number of steps that do not admit d. The halvings stand in a row, since in a loop the compiler makes a branch of each.
#[tactic(auto, unfolding(crate::specs::Ladder::by_halves_of))]
fn by_halves(ladder: &[u32], d: u64) -> usize
    requires { length ladder.now ≡ ladder_length }
    ensures { result ≡ by_halves_of ladder.now d }
{
    let by_32 = narrow(ladder, d, 32, 0);
    let by_16 = narrow(ladder, d, 16, by_32);
    let by_8 = narrow(ladder, d, 8, by_16);
    let by_4 = narrow(ladder, d, 4, by_8);
    let by_2 = narrow(ladder, d, 2, by_4);
    let by_1 = narrow(ladder, d, 1, by_2);
    narrow(ladder, d, 1, by_1)
}

// The place of the first threshold that admits d, or one behind all thresholds: by the step that the cell of d names, or by halving where
// it names none.
#[tactic(auto, unfolding(crate::specs::Ladder::cell_of, crate::specs::Ladder::named_by, crate::specs::Ladder::by_steps_of))]
pub(crate) fn by_steps(ladder: &[u32], shift: u32, d: u64) -> usize
    requires { (length ladder.now ≡ ladder_length) × (shift ≡ shift_of ladder.now) }
    ensures { result ≡ by_steps_of ladder.now d }
{
    let step = ladder[FIRST_CELL + cell_of(d, shift)] as usize;
    if step < STEPS {
        narrow(ladder, d, 1, step)
    } else {
        by_halves(ladder, d)
    }
}

// The same where there is a cell for each metre.
#[tactic(auto, unfolding(crate::specs::Ladder::place_in))]
pub(crate) fn place_in(ladder: &[u32], d: u64) -> usize
    requires { length ladder.now ≡ ladder_length }
    ensures { result ≡ place_in ladder.now d }
{
    let cell = d.min(LAST_CELL as u64) as usize;
    ladder[FIRST_CELL + cell] as usize
}

// The same by what was read of the ladder.
#[tactic(auto, unfolding(crate::specs::Ladder::cells_of, crate::specs::Ladder::found_in))]
pub(crate) fn find(ladder: &[u32], cells: Cells, d: u64) -> usize
    requires { (length ladder.now ≡ ladder_length) × (cells ≡ cells_of ladder.now) }
    ensures { result ≡ found_in ladder.now d }
{
    match cells {
        Cells::EachMetre => place_in(ladder, d),
        Cells::Wide(shift) => by_steps(ladder, shift, d),
    }
}

// The place of the first threshold that admits so many metres, or one behind all thresholds; the number of all steps if the list is not
// as long as a ladder.
#[tactic(auto, unfolding(crate::specs::Ladder::bucket_in))]
pub fn first_admitting(ladder: &[u32], metres: u64) -> usize
    ensures { (length ladder.now ≡ ladder_length → result ≡ bucket_in ladder.now metres) × (result ≤ max_thresholds) × ((ts : List ℕ) → LadderOf ts ladder.now → (k : ℕ) → k < length ts → leb result k ≡ leb metres (get_or ts k 0)) }
{
    if ladder.len() != LADDER {
        return STEPS;
    }
    let cells = read_cells(ladder);
    find(ladder, cells, metres).min(STEPS)
}
