// Least and greatest over the comparison sets.
ghost use Rattle.std.specs.Prelude.{◌≡◌, ◌+◌, ◌*◌, ◌≤◌, length, get_or};
ghost use Rattle.model.specs.Envelope.{widen};
ghost use Rattle.table.specs.Columns.{RowsThere, ColumnThere, column_from, columns, envelope_in};
ghost use Rattle.table.specs.Table.{leasts, greatests};

#[derive(Clone, Copy)]
pub struct Span {
    pub lower: u32,
    pub upper: u32,
}

// One more count taken in.
#[tactic(auto, unfolding(model::specs::Envelope::widen))]
fn widen(count: u32, span: Span) -> Span
    ensures { envelope_in result ≡ widen count (envelope_in span) }
{
    Span {
        lower: count.min(span.lower),
        upper: count.max(span.upper),
    }
}

// The entry of row s at place k.
fn entry(rows: &[u32], width: usize, s: usize, k: usize) -> u32
    requires { ColumnThere rows.now width s k }
    ensures { result ≡ get_or rows.now (s * width + k) 0 }
{
    rows[s * width + k]
}

// Least and greatest of the entries at place k of the rows from 1 on.
fn span_at(rows: &[u32], width: usize, greatest: usize, k: usize) -> Span
    requires { ColumnThere rows.now width greatest k }
    ensures { envelope_in result ≡ column_from rows.now width k 1 greatest }
{
    let last = entry(rows, width, greatest, k);
    let mut span = Span {
        lower: last,
        upper: last,
    };
    for s in (1..greatest).rev() {
        span = widen(entry(rows, width, s, k), span);
    }
    span
}

// Least and greatest at every place, into lists of just so many places.
pub(crate) fn fill_spans(
    rows: &[u32],
    width: usize,
    greatest: usize,
    lower: &mut [u32],
    upper: &mut [u32],
)
    requires { RowsThere rows.now width greatest × (1 ≤ greatest) × (length lower.old ≡ width) × (length upper.old ≡ width) }
    ensures { (lower.new ≡ leasts (columns rows.now width greatest)) × (upper.new ≡ greatests (columns rows.now width greatest)) }
{
    for k in 0..width {
        let span = span_at(rows, width, greatest, k);
        lower[k] = span.lower;
        upper[k] = span.upper;
    }
}
