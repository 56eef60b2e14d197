// The checks in front of the table, in document 01's order.
ghost use Rattle.std.specs.Prelude.{◌≡◌};
ghost use Rattle.model.specs.Checks.{room_check};
ghost use Rattle.model.specs.Network.{network_of};
ghost use Rattle.model.specs.Refusal.{or_else};
ghost use Rattle.table.specs.Table.{spanned, spans_check, table_check};

use model::{Network, Refusal, Reports};
use validate::check_room;

// How many thresholds have a least and a greatest: none where there are no comparison sets.
fn spanned(greatest: u32, width: usize) -> usize
    ensures { result ≡ spanned greatest width }
{
    if greatest == 0 { 0 } else { width }
}

// 2 for two answer lists.
#[tactic(auto, unfolding(model::specs::Refusal::or_else))]
fn check_rooms(count: usize, lower: &[u32], upper: &[u32]) -> Result<(), Refusal>
    ensures { result ≡ or_else (room_check count lower.now) (room_check count upper.now) }
{
    check_room(count, lower)?;
    check_room(count, upper)
}

// 2 for the lists of least and greatest.
fn check_spans(sets: &[u32], width: usize, lower: &[u32], upper: &[u32]) -> Result<(), Refusal>
    ensures { result ≡ spans_check sets.now width lower.now upper.now }
{
    let greatest = validate::greatest_set(sets);
    check_rooms(spanned(greatest, width), lower, upper)
}

// 2, 6, 7, 9, 12 to 16, 18 and 19. Every refusal 2 is at place 0, so that the answer lists may be looked at first.
#[tactic(auto, unfolding(crate::specs::Table::table_check, model::specs::Refusal::or_else))]
pub(crate) fn check_table(
    network: Network,
    reports: Reports,
    thresholds: &[u32],
    observed: &[u32],
    lower: &[u32],
    upper: &[u32],
) -> Result<(), Refusal>
    ensures { result ≡ table_check (network_of network.entry) reports.entry.sets.now reports.entry.edges.now reports.entry.offsets.now thresholds.now observed.now lower.now upper.now }
{
    check_room(thresholds.len(), observed)?;
    check_spans(reports.sets, thresholds.len(), lower, upper)?;
    validate::check_sets(network, reports)?;
    validate::check_thresholds(thresholds)
}
