// Totals of 64 bits at rising thresholds.
ghost use Rattle.edge_pair.specs.Totals.{Changed};

// Changes the entry at a place by what one number is more than another, and so the totals from it on, modulo 2^64; nothing behind the
// end of the list.
pub fn change_from(totals: &mut [u64], place: usize, less: u64, more: u64)
    ensures { Changed place less more totals.old totals.new }
{
    if place < totals.len() {
        let raised = totals[place].wrapping_add(more);
        totals[place] = raised.wrapping_sub(less);
    }
}
