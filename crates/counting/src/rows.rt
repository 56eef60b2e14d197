// The counts of a set from its totals.
ghost use Rattle.std.specs.Prelude.{◌≡◌, ◌-◌, ◌≤◌, min, length, slice_index};
ghost use Rattle.counting.specs.Rows.{max_count, Doubled, RowWritten};
ghost use Rattle.counting.specs.Prepared.{runs_row, CountsFit};

use crate::method::Method;
use crate::prepared::Prepared;
use crate::runs::add_each;
use model::Thresholds;

// No count of 32 bits is greater.
const MAX_COUNT: u64 = 4294967295;

// An entry for each threshold, and one for what no threshold admits.
const TOTALS: usize = Thresholds::MAX_THRESHOLDS + 1;

// Doubles every entry, modulo 2^64.
fn double(totals: &mut [u64])
    ensures { Doubled totals.old totals.new }
{
    for total in totals.iter_mut() {
        *total = total.wrapping_add(*total);
    }
}

// A total less the events, each of which was counted with itself.
fn others(total: u64, events: u64) -> u32
    ensures { result ≡ min (total - events) max_count }
{
    total.saturating_sub(events).min(MAX_COUNT) as u32
}

// The total at each threshold less the events.
fn write_row(totals: &[u64], events: u64, row: &mut [u32])
    requires { length row.old ≤ length totals.now }
    ensures { RowWritten totals.now events (length row.old) row.new }
{
    let mut total = 0u64;
    for (k, count) in row.iter_mut().enumerate() {
        total = total.wrapping_add(totals[k]);
        *count = others(total, events);
    }
}

// The count at each threshold of a set whose runs are those from r up to before q and have so many events. The first turn takes each run
// with the earlier ones of its set, the second takes each run with itself, and the totals of the first are doubled in between, because
// each two runs are looked at once and count both ways. There is one call, so that the compiler can compile the loops into this function.
pub(crate) fn set_row(
    method: Method,
    prepared: Prepared,
    r: usize,
    q: usize,
    events: u64,
    row: &mut [u32],
)
    requires { (r ≤ q) × (q ≤ prepared.runs) × CountsFit prepared r q × (events ≡ slice_index prepared.bounds.now q - slice_index prepared.bounds.now r) × (length row.old ≡ length prepared.thresholds.now) }
    ensures { row.new ≡ runs_row prepared.entry r q }
{
    let mut totals = [0u64; TOTALS];
    for own in [false, true] {
        double(&mut totals);
        add_each(method, prepared, own, r, q, &mut totals);
    }
    write_row(&totals, events, row);
}
