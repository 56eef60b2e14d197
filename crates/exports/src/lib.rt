// The library for programs in C and Rust. A slice is a pointer and a length, a `&mut` number is a pointer.
// A refusal is told through number and place, 0 and 0 where there is none.
#![tactic(auto)]

mod counts;
mod inner;
mod told;

ghost use Rattle.std.specs.Prelude.{length};
ghost use Rattle.model.specs.Checks.{layout_check};
ghost use Rattle.model.specs.Network.{network};
ghost use Rattle.layout.specs.Layout.{LaidOut};
ghost use Rattle.distance.specs.Answers.{row_check, RowAnswered, table_check, TableAnswered};
ghost use Rattle.between.specs.Answers.{node_answer, bounded_node_answer, location_answer};
ghost use Rattle.perimeter.specs.Answers.{perimeter_answer};
ghost use Rattle.model.specs.Answer.{answer};
ghost use Rattle.threshold_reader.specs.Answers.{threshold_text_check, text_thresholds, ThresholdsRead};
ghost use Rattle.event_reader.specs.Answers.{event_text_check, text_rows, EventsRead};
ghost use Rattle.network_reader.specs.Answers.{network_answer, network_text_check, text_network, NetworkRead};
ghost use Rattle.exports.specs.Told.{Told, ToldWith, verdict_of, length_code, count_of, ToldNetwork};

use model::Network;

// The events of one set, sorted in place by edge and then by offset.
#[unsafe(no_mangle)]
pub extern "C" fn kc_lay_out(
    edges: &mut [u32],
    offsets: &mut [u32],
    number: &mut u32,
    place: &mut usize,
)
    ensures told { Told (layout_check edges.old offsets.old) number.new place.new }
    ensures laid_out { LaidOut edges.old offsets.old (layout_check edges.old offsets.old) edges.new offsets.new }
{
    let answer = layout::lay_out(edges, offsets);
    told::tell(answer, (), number, place);
}

// The bounded distance from the source to each node, in node order: 0 where it is beyond, else one more than the metres.
#[unsafe(no_mangle)]
pub extern "C" fn kc_distances_from(
    nodes: u32,
    firsts: &[u32],
    seconds: &[u32],
    lengths: &[u32],
    source: u32,
    bound: u32,
    answers: &mut [u32],
    number: &mut u32,
    place: &mut usize,
)
    ensures told { Told (row_check (network nodes firsts.now seconds.now lengths.now) source answers.old) number.new place.new }
    ensures row_answered { RowAnswered (network nodes firsts.now seconds.now lengths.now) source bound answers.old (row_check (network nodes firsts.now seconds.now lengths.now) source answers.old) answers.new }
{
    let network = Network {
        nodes,
        firsts,
        seconds,
        lengths,
    };
    let answer = distance::distances_from(network, source, bound, answers);
    told::tell(answer, (), number, place);
}

// Rows of bounded distances from every node that is wanted (its entry of the list is not 0); the other rows stay as they were.
#[unsafe(no_mangle)]
pub extern "C" fn kc_end_distances(
    nodes: u32,
    firsts: &[u32],
    seconds: &[u32],
    lengths: &[u32],
    bound: u32,
    wanted: &[u32],
    table: &mut [u32],
    number: &mut u32,
    place: &mut usize,
)
    ensures told { Told (table_check (network nodes firsts.now seconds.now lengths.now) wanted.now table.old) number.new place.new }
    ensures table_answered { TableAnswered (network nodes firsts.now seconds.now lengths.now) bound wanted.now table.old (table_check (network nodes firsts.now seconds.now lengths.now) wanted.now table.old) table.new }
{
    let network = Network {
        nodes,
        firsts,
        seconds,
        lengths,
    };
    let answer = distance::end_distances(network, bound, wanted, table);
    told::tell(answer, (), number, place);
}

// One more than the metres from u to v; 0 for no walk or refused.
#[unsafe(no_mangle)]
pub extern "C" fn kc_node_distance(
    nodes: u32,
    firsts: &[u32],
    seconds: &[u32],
    lengths: &[u32],
    u: u32,
    v: u32,
    number: &mut u32,
    place: &mut usize,
) -> u64
    ensures { ToldWith (verdict_of (node_answer (network nodes firsts.now seconds.now lengths.now) u v)) (length_code (node_answer (network nodes firsts.now seconds.now lengths.now) u v)) result number.new place.new }
{
    let network = Network {
        nodes,
        firsts,
        seconds,
        lengths,
    };
    let answer = between::node_distance(network, u, v);
    told::tell_length(answer, number, place)
}

// The same, 0 if it is beyond the bound.
#[unsafe(no_mangle)]
pub extern "C" fn kc_bounded_node_distance(
    nodes: u32,
    firsts: &[u32],
    seconds: &[u32],
    lengths: &[u32],
    bound: u32,
    u: u32,
    v: u32,
    number: &mut u32,
    place: &mut usize,
) -> u64
    ensures { ToldWith (verdict_of (bounded_node_answer (network nodes firsts.now seconds.now lengths.now) bound u v)) (length_code (bounded_node_answer (network nodes firsts.now seconds.now lengths.now) bound u v)) result number.new place.new }
{
    let network = Network {
        nodes,
        firsts,
        seconds,
        lengths,
    };
    let answer = between::bounded_node_distance(network, bound, u, v);
    told::tell_length(answer, number, place)
}

// The same of two locations, each an edge number and an offset.
#[unsafe(no_mangle)]
pub extern "C" fn kc_location_distance(
    nodes: u32,
    firsts: &[u32],
    seconds: &[u32],
    lengths: &[u32],
    edge1: u32,
    offset1: u32,
    edge2: u32,
    offset2: u32,
    number: &mut u32,
    place: &mut usize,
) -> u64
    ensures { ToldWith (verdict_of (location_answer (network nodes firsts.now seconds.now lengths.now) edge1 offset1 edge2 offset2)) (length_code (location_answer (network nodes firsts.now seconds.now lengths.now) edge1 offset1 edge2 offset2)) result number.new place.new }
{
    let network = Network {
        nodes,
        firsts,
        seconds,
        lengths,
    };
    let answer = between::location_distance(network, edge1, offset1, edge2, offset2);
    told::tell_length(answer, number, place)
}

// How many locations lie at exactly the radius from a centre; 0 where refused.
#[unsafe(no_mangle)]
pub extern "C" fn kc_perimeter_count(
    nodes: u32,
    firsts: &[u32],
    seconds: &[u32],
    lengths: &[u32],
    edge: u32,
    offset: u32,
    radius: u32,
    number: &mut u32,
    place: &mut usize,
) -> u32
    ensures { ToldWith (verdict_of (perimeter_answer (network nodes firsts.now seconds.now lengths.now) edge offset radius)) (count_of (perimeter_answer (network nodes firsts.now seconds.now lengths.now) edge offset radius)) result number.new place.new }
{
    let network = Network {
        nodes,
        firsts,
        seconds,
        lengths,
    };
    let answer = perimeter::perimeter_count(network, edge, offset, radius);
    told::tell(answer, 0, number, place)
}

// How many thresholds were read from a text; 0 where refused.
#[unsafe(no_mangle)]
pub extern "C" fn kc_read_thresholds(
    text: &[u8],
    thresholds: &mut [u32],
    number: &mut u32,
    place: &mut usize,
) -> usize
    ensures told_with { ToldWith (verdict_of (answer (threshold_text_check text.now thresholds.old) (length (text_thresholds text.now)))) (count_of (answer (threshold_text_check text.now thresholds.old) (length (text_thresholds text.now)))) result number.new place.new }
    ensures thresholds_read { ThresholdsRead text.now thresholds.old (answer (threshold_text_check text.now thresholds.old) (length (text_thresholds text.now))) thresholds.new }
{
    let answer = threshold_reader::read_thresholds(text, thresholds);
    told::tell(answer, 0, number, place)
}

// How many events were read from a report text over a network; 0 where refused.
#[unsafe(no_mangle)]
pub extern "C" fn kc_read_events(
    text: &[u8],
    nodes: u32,
    firsts: &[u32],
    seconds: &[u32],
    lengths: &[u32],
    sets: &mut [u32],
    edges: &mut [u32],
    offsets: &mut [u32],
    number: &mut u32,
    place: &mut usize,
) -> usize
    ensures told_with { ToldWith (verdict_of (answer (event_text_check (network nodes firsts.now seconds.now lengths.now) text.now sets.old edges.old offsets.old) (length (text_rows (network nodes firsts.now seconds.now lengths.now) text.now)))) (count_of (answer (event_text_check (network nodes firsts.now seconds.now lengths.now) text.now sets.old edges.old offsets.old) (length (text_rows (network nodes firsts.now seconds.now lengths.now) text.now)))) result number.new place.new }
    ensures events_read { EventsRead (network nodes firsts.now seconds.now lengths.now) text.now sets.old edges.old offsets.old (answer (event_text_check (network nodes firsts.now seconds.now lengths.now) text.now sets.old edges.old offsets.old) (length (text_rows (network nodes firsts.now seconds.now lengths.now) text.now))) sets.new edges.new offsets.new }
{
    let network = Network {
        nodes,
        firsts,
        seconds,
        lengths,
    };
    let answer = event_reader::read_events(text, network, sets, edges, offsets);
    told::tell(answer, 0, number, place)
}

// How many edges were read from a network text, and the number of nodes beside it; 0 where refused.
#[unsafe(no_mangle)]
pub extern "C" fn kc_read_network(
    text: &[u8],
    firsts: &mut [u32],
    seconds: &mut [u32],
    lengths: &mut [u32],
    nodes: &mut u32,
    number: &mut u32,
    place: &mut usize,
) -> usize
    ensures told_network { ToldNetwork (network_answer (network_text_check text.now firsts.old seconds.old lengths.old) (text_network text.now)) result nodes.new number.new place.new }
    ensures network_read { NetworkRead text.now firsts.old seconds.old lengths.old (network_answer (network_text_check text.now firsts.old seconds.old lengths.old) (text_network text.now)) firsts.new seconds.new lengths.new }
{
    let answer = network_reader::read_network(text, firsts, seconds, lengths);
    told::tell_network(answer, nodes, number, place)
}
