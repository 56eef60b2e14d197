// The lines of a network text, one at a time.
ghost use Rattle.std.specs.Prelude.{◌&&◌, ◌||◌, true, ◌∷◌, [], ◌++◌, ◌≡◌, suc, ◌*◌, ◌%◌, ◌≤◌, ◌<◌, eqb};
ghost use Rattle.model.specs.Limits.{max_nodes, max_edges};
ghost use Rattle.model.specs.Refusal.{is_between_of};
ghost use Rattle.text.specs.NetworkText.{turns_last, network_line_text};
ghost use Rattle.text.specs.Parallel.{Level};
ghost use Rattle.network_reader.specs.Steps.{arc_of, arcs_in, ArcChecked, Sound, LineTaken, ProblemTaken};

use model::{Fault, Network};
use text::NetworkLine;

// What was read since the `p` line: the nodes and arcs that it announced, and how many arcs came.
#[derive(Clone, Copy)]
pub struct Arcs {
    pub nodes: u32,
    pub arcs: u32,
    pub count: usize,
}

// An arc as a line gives it.
#[derive(Clone, Copy)]
struct Arc {
    from: u32,
    to: u32,
    weight: u32,
}

// 6: nodes and arcs within their limits, arcs two by two.
fn are_sizes(nodes: u32, arcs: u32) -> bool
    ensures { result ≡ (is_between_of 1 max_nodes nodes && (eqb (arcs % 2) 0 && is_between_of 2 (2 * max_edges) arcs)) }
{
    model::is_between(1, Network::MAX_NODES as u64, nodes as u64)
        && arcs % 2 == 0
        && model::is_between(2, 2 * Network::MAX_EDGES as u64, arcs as u64)
}

// 7 and 9 for one arc.
fn check_arc(nodes: u32, arc: Arc) -> Result<(), Fault>
    ensures { ArcChecked nodes (arc_of arc) result }
{
    if !Network::are_nodes(nodes, arc.from, arc.to) {
        return Err(Fault::BadNode);
    }
    if !Network::is_length(arc.weight) {
        return Err(Fault::BadLength);
    }
    Ok(())
}

// 10: every second arc is the one before it turned round.
fn is_turned(count: usize, arc: Arc, firsts: &[u32], seconds: &[u32], lengths: &[u32]) -> bool
    requires { (count ≤ 2 * max_edges) × Level max_edges firsts.now seconds.now lengths.now }
    ensures { result ≡ (eqb (count % 2) 0 || turns_last (arcs_in count firsts.now seconds.now lengths.now) (arc_of arc)) }
{
    if count % 2 == 0 {
        return true;
    }
    let edge = count / 2;
    firsts[edge] == arc.to && seconds[edge] == arc.from && lengths[edge] == arc.weight
}

// The first of every two arcs is stored as an edge; the second is told by it.
fn store(count: usize, arc: Arc, firsts: &mut [u32], seconds: &mut [u32], lengths: &mut [u32])
    requires { (count < 2 * max_edges) × Level max_edges firsts.old seconds.old lengths.old × ((eqb (count % 2) 0 || turns_last (arcs_in count firsts.old seconds.old lengths.old) (arc_of arc)) ≡ true) }
    ensures { arcs_in (suc count) firsts.new seconds.new lengths.new ≡ arcs_in count firsts.old seconds.old lengths.old ++ (arc_of arc ∷ []) }
{
    if count % 2 == 1 {
        return;
    }
    let edge = count / 2;
    firsts[edge] = arc.from;
    seconds[edge] = arc.to;
    lengths[edge] = arc.weight;
}

// A `p` line: 5 where one came before, then 6.
fn take_problem(seen: Option<Arcs>, nodes: u32, arcs: u32) -> Result<Option<Arcs>, Fault>
    ensures { ProblemTaken seen nodes arcs result }
{
    if let Some(_) = seen {
        return Err(Fault::Misplaced);
    }
    if !are_sizes(nodes, arcs) {
        return Err(Fault::BadSizes);
    }
    Ok(Some(Arcs {
        nodes,
        arcs,
        count: 0,
    }))
}

// An arc: 5 where no `p` line came before, then 7 and 9 to 11.
fn take_arc(
    seen: Option<Arcs>,
    arc: Arc,
    firsts: &mut [u32],
    seconds: &mut [u32],
    lengths: &mut [u32],
) -> Result<Option<Arcs>, Fault>
    requires { Sound seen × Level max_edges firsts.old seconds.old lengths.old }
    ensures { LineTaken seen (NetworkLine.Arc arc.from arc.to arc.weight) firsts.old seconds.old lengths.old result firsts.new seconds.new lengths.new }
{
    let before = seen.ok_or(Fault::Misplaced)?;
    check_arc(before.nodes, arc)?;
    if !is_turned(before.count, arc, firsts, seconds, lengths) {
        return Err(Fault::NotTurned);
    }
    if before.arcs as usize <= before.count {
        return Err(Fault::WrongArcs);
    }
    store(before.count, arc, firsts, seconds, lengths);
    Ok(Some(Arcs {
        count: before.count + 1,
        ..before
    }))
}

// One line of any form.
fn take_form(
    seen: Option<Arcs>,
    line: NetworkLine,
    firsts: &mut [u32],
    seconds: &mut [u32],
    lengths: &mut [u32],
) -> Result<Option<Arcs>, Fault>
    requires { Sound seen × Level max_edges firsts.old seconds.old lengths.old }
    ensures { LineTaken seen line firsts.old seconds.old lengths.old result firsts.new seconds.new lengths.new }
{
    match line {
        NetworkLine::Other => Err(Fault::NoForm),
        NetworkLine::Remark => Ok(seen),
        NetworkLine::Problem(nodes, arcs) => take_problem(seen, nodes, arcs),
        NetworkLine::Arc(from, to, weight) => {
            take_arc(seen, Arc { from, to, weight }, firsts, seconds, lengths)
        }
    }
}

// One line.
pub(crate) fn take_line(
    seen: Option<Arcs>,
    line: &[u8],
    firsts: &mut [u32],
    seconds: &mut [u32],
    lengths: &mut [u32],
) -> Result<Option<Arcs>, Fault>
    requires { Sound seen × Level max_edges firsts.old seconds.old lengths.old }
    ensures { LineTaken seen (network_line_text line.now) firsts.old seconds.old lengths.old result firsts.new seconds.new lengths.new }
{
    take_form(seen, text::network_line_of(line), firsts, seconds, lengths)
}
