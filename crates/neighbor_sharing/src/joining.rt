// What is reached from an event of the first edge, from the six cursors' positions.
ghost use Rattle.std.specs.Prelude.{◌≡◌, ◌≤◌};
ghost use Rattle.neighbor_sharing.specs.Joined.{joined_from};

use crate::moving::Stands;
use model::covered;

// How many of so many events of the second edge are reached where the cursors stand.
pub(crate) fn joined_of(places: u64, stands: Stands) -> u64
    ensures { (result ≡ joined_from places stands) × (result ≤ places) }
{
    let ff = stands.ff as u64;
    let fs = stands.fs as u64;
    let sf = stands.sf as u64;
    let ss = stands.ss as u64;
    let low = stands.low as u64;
    let high = stands.high as u64;
    covered(places, ff.max(sf), fs.max(ss), low, high)
}
