// Refusals 13 to 15 and 17: the events of one set over a network.
ghost use Rattle.std.specs.Prelude.{false, ◌≡◌, length, get_or, pred, ℕ, ◌≤◌, ◌<◌};
ghost use Rattle.model.specs.Events.{event, before};
ghost use Rattle.model.specs.Refusal.{or_else};
ghost use Rattle.validate.specs.Part.{with_lengths};
ghost use Rattle.model.specs.Checks.{event_edges_check, event_offsets_check, event_count_check, event_values, order_check, lone_edge_check, lone_offset_check};

use crate::number::{is_on_edge, names_one};
use crate::scan::first_bad;
use model::{EventSet, Fault, Refusal};

// 13 for a lone edge number.
pub(crate) fn check_lone_edge(lengths: &[u32], edge: u32) -> Result<(), Refusal>
    ensures { result ≡ lone_edge_check (with_lengths lengths.now) edge }
{
    if !names_one(lengths.len() as u64, edge) {
        return Err(Refusal {
            fault: Fault::NoEdge,
            place: 0,
        });
    }
    Ok(())
}

// 14 for a lone location, whose edge number names an edge.
pub(crate) fn check_lone_offset(lengths: &[u32], edge: u32, offset: u32) -> Result<(), Refusal>
    requires { (1 ≤ edge) × (edge ≤ length lengths.now) }
    ensures { result ≡ lone_offset_check (with_lengths lengths.now) edge offset }
{
    if !is_on_edge(lengths, edge, offset) {
        return Err(Refusal {
            fault: Fault::BeyondEdge,
            place: 0,
        });
    }
    Ok(())
}

// 13: an edge number names no edge.
fn check_edges(lengths: &[u32], edges: &[u32]) -> Result<(), Refusal>
    ensures { result ≡ event_edges_check (with_lengths lengths.now) edges.now }
{
    first_bad(Fault::NoEdge, 0, edges.len(), |k| {
        names_one(lengths.len() as u64, edges[k])
    })
}

// 14: an offset beyond its edge.
fn check_offsets(lengths: &[u32], edges: &[u32], offsets: &[u32]) -> Result<(), Refusal>
    requires { (length edges.now ≡ length offsets.now) × ((k : ℕ) → k < length edges.now → (1 ≤ get_or edges.now k 0) × (get_or edges.now k 0 ≤ length lengths.now)) }
    ensures { result ≡ event_offsets_check (with_lengths lengths.now) edges.now offsets.now }
{
    first_bad(Fault::BeyondEdge, 0, edges.len(), |k| {
        is_on_edge(lengths, edges[k], offsets[k])
    })
}

// 15: more events than may be held, at the first surplus one.
#[tactic(auto, unfolding(model::specs::Answer::answer, model::specs::Made::event_set_of))]
pub(crate) fn check_count(count: usize) -> Result<(), Refusal>
    ensures { result ≡ event_count_check count }
{
    EventSet::new(count)?;
    Ok(())
}

// 13 to 15.
#[tactic(auto, unfolding(model::specs::Checks::event_values, model::specs::Refusal::or_else))]
pub(crate) fn check_events(lengths: &[u32], edges: &[u32], offsets: &[u32]) -> Result<(), Refusal>
    requires { length edges.now ≡ length offsets.now }
    ensures { result ≡ event_values (with_lengths lengths.now) edges.now offsets.now }
{
    check_edges(lengths, edges)?;
    check_offsets(lengths, edges, offsets)?;
    check_count(edges.len())
}

// The event of an edge and an offset comes before another.
#[tactic(auto, unfolding(model::specs::Events::before))]
fn is_before(edge: u32, offset: u32, edge2: u32, offset2: u32) -> bool
    ensures { result ≡ before (event edge offset) (event edge2 offset2) }
{
    edge < edge2 || edge == edge2 && offset < offset2
}

// Some event is below its forerunner. All are looked at, and no branch hangs on what is found, so that the loop compiles to vector
// instructions.
fn any_below(edges: &[u32], offsets: &[u32]) -> bool
    requires { length edges.now ≡ length offsets.now }
    ensures { result ≡ false → (k : ℕ) → 1 ≤ k → k < length edges.now → before (event (get_or edges.now k 0) (get_or offsets.now k 0)) (event (get_or edges.now (pred k) 0) (get_or offsets.now (pred k) 0)) ≡ false }
{
    let mut below = false;
    for k in 1..edges.len() {
        below = below | is_before(edges[k], offsets[k], edges[k - 1], offsets[k - 1]);
    }
    below
}

// 17: an event below its forerunner, which is looked for where there is one.
fn check_order(edges: &[u32], offsets: &[u32]) -> Result<(), Refusal>
    requires { length edges.now ≡ length offsets.now }
    ensures { result ≡ order_check edges.now offsets.now }
{
    if !any_below(edges, offsets) {
        return Ok(());
    }
    first_bad(Fault::NotInOrder, 1, edges.len(), |k| {
        !is_before(edges[k], offsets[k], edges[k - 1], offsets[k - 1])
    })
}

// 13 for the number of one edge, then 13 to 15 and 17 for events given as laid out.
#[tactic(auto, unfolding(model::specs::Refusal::or_else))]
pub(crate) fn check_laid_out(
    lengths: &[u32],
    edges: &[u32],
    offsets: &[u32],
    edge: u32,
) -> Result<(), Refusal>
    requires { length edges.now ≡ length offsets.now }
    ensures { result ≡ or_else (lone_edge_check (with_lengths lengths.now) edge) (or_else (event_values (with_lengths lengths.now) edges.now offsets.now) (order_check edges.now offsets.now)) }
{
    check_lone_edge(lengths, edge)?;
    check_events(lengths, edges, offsets)?;
    check_order(edges, offsets)
}
