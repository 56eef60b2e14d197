// Reading a report text over a network's lengths.
ghost use Rattle.std.specs.Prelude.{◌≡◌, ◌≤◌};
ghost use Rattle.model.specs.Limits.{max_events};
ghost use Rattle.model.specs.Network.{network_of};
ghost use Rattle.text.specs.EventText.{take_row, take_numbers_of, event_step, rows};
ghost use Rattle.validate.specs.Part.{with_lengths};
ghost use Rattle.text.specs.Parallel.{Level};
ghost use Rattle.event_reader.specs.Steps.{row_of, rows_in, rows_after, RowChecked, EventRows, EventsTaken, RowsAnswered};

use model::{EventSet, Fault, Network, Refusal, Reports};
use reading::{answer_three, read_header};
use text::Numbers;
use validate::check_sets;

// A row as a line gives it.
#[derive(Clone, Copy)]
struct Row {
    set: u32,
    edge: u32,
    offset: u32,
}

// 12 to 15 for one more row behind `count` others.
fn check_row(lengths: &[u32], count: usize, row: Row) -> Result<(), Fault>
    ensures { RowChecked lengths.now count (row_of row) result }
{
    if !EventSet::is_set(row.set) {
        return Err(Fault::BadSet);
    }
    if !model::is_between(1, lengths.len() as u64, row.edge as u64) {
        return Err(Fault::NoEdge);
    }
    if lengths[row.edge as usize - 1] < row.offset {
        return Err(Fault::BeyondEdge);
    }
    if EventSet::MAX_EVENTS <= count {
        return Err(Fault::TooManyEvents);
    }
    Ok(())
}

// One more row, stored behind the first `count`.
fn take_row(
    lengths: &[u32],
    row: Row,
    count: usize,
    sets: &mut [u32],
    edges: &mut [u32],
    offsets: &mut [u32],
) -> Result<(), Fault>
    requires { (count ≤ max_events) × Level max_events sets.old edges.old offsets.old }
    ensures { take_row (with_lengths lengths.now) (rows_in count sets.old edges.old offsets.old) (row_of row) ≡ rows_after result count sets.new edges.new offsets.new }
{
    check_row(lengths, count, row)?;
    sets[count] = row.set;
    edges[count] = row.edge;
    offsets[count] = row.offset;
    Ok(())
}

// A row has three numbers.
#[tactic(auto, unfolding(crate::specs::Steps::rows_after, text::specs::EventText::take_numbers_of))]
fn take_numbers(
    lengths: &[u32],
    numbers: Numbers,
    count: usize,
    sets: &mut [u32],
    edges: &mut [u32],
    offsets: &mut [u32],
) -> Result<(), Fault>
    requires { (count ≤ max_events) × Level max_events sets.old edges.old offsets.old }
    ensures { take_numbers_of (with_lengths lengths.now) (rows_in count sets.old edges.old offsets.old) numbers ≡ rows_after result count sets.new edges.new offsets.new }
{
    match numbers {
        Numbers::Three(set, edge, offset) => {
            take_row(
                lengths,
                Row { set, edge, offset },
                count,
                sets,
                edges,
                offsets,
            )
        }
        _ => Err(Fault::NoForm),
    }
}

// One line behind the header.
fn take_line(
    lengths: &[u32],
    line: &[u8],
    count: usize,
    sets: &mut [u32],
    edges: &mut [u32],
    offsets: &mut [u32],
) -> Result<(), Fault>
    requires { (count ≤ max_events) × Level max_events sets.old edges.old offsets.old }
    ensures { event_step (with_lengths lengths.now) (rows (rows_in count sets.old edges.old offsets.old)) line.now ≡ rows_after result count sets.new edges.new offsets.new }
{
    take_numbers(
        lengths,
        text::numbers_of(line, b','),
        count,
        sets,
        edges,
        offsets,
    )
}

// The rows: the first is on line 2, each is one line.
fn take_rows(
    lengths: &[u32],
    text: &[u8],
    sets: &mut [u32],
    edges: &mut [u32],
    offsets: &mut [u32],
) -> Result<usize, Refusal>
    requires { Level max_events sets.old edges.old offsets.old }
    ensures { EventRows lengths.now text.now result sets.new edges.new offsets.new }
{
    let mut at = 0;
    let mut count = 0;
    // Each turn goes on by as many bytes as the line has, so this is no `for`.
    while at < text.len() {
        let rest = &text[at..];
        let line = text::csv_line(rest);
        let end = line.end;
        take_line(lengths, &rest[..end], count, sets, edges, offsets).map_err(|fault| Refusal {
            fault,
            place: count + 2,
        })?;
        at += line.next;
        count += 1;
    }
    Ok(count)
}

// A whole text into the lists.
pub(crate) fn take_text(
    lengths: &[u32],
    text: &[u8],
    sets: &mut [u32],
    edges: &mut [u32],
    offsets: &mut [u32],
) -> Result<usize, Refusal>
    requires { Level max_events sets.old edges.old offsets.old }
    ensures { EventsTaken lengths.now text.now result sets.new edges.new offsets.new }
{
    match read_header(b"set,leg,offset", text) {
        Some(start) => take_rows(lengths, &text[start..], sets, edges, offsets),
        None => Err(Refusal {
            fault: Fault::NoHeader,
            place: 1,
        }),
    }
}

// The rows that were read pass every check of lists but 16; then 2, or the answer lists filled.
pub(crate) fn answer_rows(
    network: Network,
    read: Reports,
    sets: &mut [u32],
    edges: &mut [u32],
    offsets: &mut [u32],
) -> Result<usize, Refusal>
    ensures { RowsAnswered (network_of network.entry) read.entry.sets.now read.entry.edges.now read.entry.offsets.now sets.old edges.old offsets.old result sets.new edges.new offsets.new }
{
    check_sets(network, read)?;
    answer_three(read.sets, read.edges, read.offsets, sets, edges, offsets)?;
    Ok(read.sets.len())
}
