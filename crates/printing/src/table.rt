// The table: a line of names, and a row for each threshold.
ghost use Rattle.std.specs.Prelude.{◌∷◌, ◌++◌, ◌≡◌, ◌≤◌, leb, length, get_or};
ghost use Rattle.printing.specs.Answers.{TablePrinted, envelope_at};
ghost use Rattle.text.specs.Digits.{digits};
ghost use Rattle.text.specs.Fields.{comma};
ghost use Rattle.printing.specs.Bytes.{row, span};
ghost use Rattle.printing.specs.Writing.{Put, Room, envelope_given, rows_of, bytes_of, check_of, table_check_of};

use crate::writing::{digit_count, put, put_field, put_number};
use model::{Fault, Refusal, value_at};
use validate::{check_thresholds, same_length};

// How many bytes the line of names takes.
const NAMES: usize = 35;

// How many bytes a comma and a number take.
fn field_size(value: u32) -> usize
    ensures size { result ≡ length (comma ∷ digits value) }
    ensures few { result ≤ 21 }
{
    1 + digit_count(value as u64)
}

// The least and the greatest count over the comparison sets, at one threshold.
#[derive(Clone, Copy)]
struct Extremes {
    least: u32,
    greatest: u32,
}

// The columns that are printed. Without comparisons the last two may be anything.
#[derive(Clone, Copy)]
struct Columns<'a> {
    comparisons: bool,
    thresholds: &'a [u32],
    observed: &'a [u32],
    lower: &'a [u32],
    upper: &'a [u32],
}

// Least and greatest of threshold number k, where there are comparison sets.
#[tactic(auto, unfolding(crate::specs::Answers::envelope_at, crate::specs::Writing::envelope_given))]
fn extremes_at(columns: Columns, k: usize) -> Option<Extremes>
    ensures { envelope_given result ≡ envelope_at columns.entry.comparisons columns.entry.lower.now columns.entry.upper.now k }
{
    if columns.comparisons {
        Some(Extremes {
            least: value_at(columns.lower, k),
            greatest: value_at(columns.upper, k),
        })
    } else {
        None
    }
}

// How many bytes least and greatest take, each behind a comma.
fn span_size(extremes: Option<Extremes>) -> usize
    ensures size { result ≡ length (comma ∷ span (envelope_given extremes)) }
    ensures few { result ≤ 42 }
{
    match extremes {
        Some(e) => field_size(e.least) + field_size(e.greatest),
        None => 2,
    }
}

// How many bytes a row takes, its line end counted.
fn row_size(threshold: u32, observed: u32, extremes: Option<Extremes>) -> usize
    ensures { result ≡ length (row threshold observed (envelope_given extremes)) }
{
    digit_count(threshold as u64) + field_size(observed) + span_size(extremes) + 2
}

// All rows together are no longer than the room.
fn rows_fit(columns: Columns, room: usize) -> bool
    ensures { result ≡ leb (length (rows_of columns.entry)) room }
{
    let mut left = room;
    for (k, threshold) in columns.thresholds.iter().enumerate() {
        let extremes = extremes_at(columns, k);
        let size = row_size(*threshold, value_at(columns.observed, k), extremes);
        if left < size {
            return false;
        }
        left -= size;
    }
    true
}

// The line of names and all rows are no longer than the room.
fn table_fits(columns: Columns, room: usize) -> bool
    ensures { result ≡ leb (length (bytes_of columns.entry)) room }
{
    NAMES <= room && rows_fit(columns, room - NAMES)
}

// 2: columns that differ in length from the thresholds; least and greatest are looked at where there are comparison sets.
#[tactic(auto, unfolding(crate::specs::Answers::columns_check, model::specs::Refusal::or_else))]
fn check_columns(columns: Columns) -> Result<(), Refusal>
    ensures { result ≡ check_of columns.entry }
{
    same_length(columns.thresholds, columns.observed)?;
    if !columns.comparisons {
        return Ok(());
    }
    same_length(columns.thresholds, columns.lower)?;
    same_length(columns.thresholds, columns.upper)
}

// 2 for the columns, or too little room; then 18 and 19.
#[tactic(auto, unfolding(crate::specs::Answers::table_bytes_check, model::specs::Refusal::or_else))]
fn check_table(columns: Columns, out: &[u8]) -> Result<(), Refusal>
    ensures { result ≡ table_check_of columns.entry out.now }
{
    check_columns(columns)?;
    if !table_fits(columns, out.len()) {
        return Err(Refusal {
            fault: Fault::ListsDiffer,
            place: 0,
        });
    }
    check_thresholds(columns.thresholds)
}

// Puts least and greatest, each behind a comma, or the two commas alone.
fn put_span(out: &mut [u8], at: usize, extremes: Option<Extremes>) -> usize
    requires { Room out.old at (comma ∷ span (envelope_given extremes)) }
    ensures { Put out.old at (comma ∷ span (envelope_given extremes)) out.new result }
{
    match extremes {
        Some(Extremes { least, greatest }) => {
            let behind = put_field(out, at, least as u64);
            put_field(out, behind, greatest as u64)
        }
        None => put(out, at, b",,"),
    }
}

fn put_row(
    out: &mut [u8],
    at: usize,
    threshold: u32,
    observed: u32,
    extremes: Option<Extremes>,
) -> usize
    requires { Room out.old at (row threshold observed (envelope_given extremes)) }
    ensures { Put out.old at (row threshold observed (envelope_given extremes)) out.new result }
{
    let after_threshold = put_number(out, at, threshold as u64);
    let after_observed = put_field(out, after_threshold, observed as u64);
    let after_span = put_span(out, after_observed, extremes);
    put(out, after_span, b"\r\n")
}

fn put_rows(columns: Columns, out: &mut [u8], start: usize) -> usize
    requires { Room out.old start (rows_of columns) }
    ensures { Put out.old start (rows_of columns.entry) out.new result }
{
    let mut at = start;
    for (k, threshold) in columns.thresholds.iter().enumerate() {
        let extremes = extremes_at(columns, k);
        at = put_row(out, at, *threshold, value_at(columns.observed, k), extremes);
    }
    at
}

fn put_table(columns: Columns, out: &mut [u8]) -> usize
    requires { Room out.old 0 (bytes_of columns) }
    ensures { Put out.old 0 (bytes_of columns.entry) out.new result }
{
    let start = put(out, 0, b"threshold,observed,least,greatest\r\n");
    put_rows(columns, out, start)
}

// Prints the table; without comparisons least and greatest are empty, and the last two columns may be anything. Refuses by 2 (columns
// that differ in length from the thresholds, or a list of bytes that is too short), 18 and 19.
pub fn print_table(
    comparisons: bool,
    thresholds: &[u32],
    observed: &[u32],
    lower: &[u32],
    upper: &[u32],
    out: &mut [u8],
) -> Result<usize, Refusal>
    ensures { TablePrinted comparisons thresholds.now observed.now lower.now upper.now out.old result out.new }
{
    let columns = Columns {
        comparisons,
        thresholds,
        observed,
        lower,
        upper,
    };
    check_table(columns, out)?;
    Ok(put_table(columns, out))
}
