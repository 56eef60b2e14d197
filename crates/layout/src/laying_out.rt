// Laying out one set.
ghost use Rattle.layout.specs.Keys.{Fitting, SortedEvents};
ghost use Rattle.layout.specs.Layout.{LaidOut};

use crate::keys::{join, part};
use model::{EventSet, Refusal};
use validate::check_layout;

// Sorts the events by way of their keys.
fn sort_events(edges: &mut [u32], offsets: &mut [u32], keys: &mut [u64])
    requires { Fitting edges.old offsets.old keys.old }
    ensures { SortedEvents edges.old offsets.old edges.new offsets.new }
{
    join(edges, offsets, keys);
    keys.sort_unstable();
    part(keys, edges, offsets);
}

// Puts the events in rising order by edge and then by offset, repeats kept. Refuses lists of different lengths (2) and more
// events than can be held (15), and leaves both lists as they were then.
pub fn lay_out(edges: &mut [u32], offsets: &mut [u32]) -> Result<(), Refusal>
    ensures { LaidOut edges.old offsets.old result edges.new offsets.new }
{
    check_layout(edges, offsets)?;
    let n = edges.len();
    let mut keys = [0u64; EventSet::MAX_EVENTS];
    sort_events(edges, offsets, &mut keys[..n]);
    Ok(())
}
