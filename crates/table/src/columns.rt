// The columns of the table from rows of counts.
ghost use Rattle.std.specs.Prelude.{◌≡◌, length};
ghost use Rattle.table.specs.Columns.{ColumnsFilled, ColumnsFit};

use crate::answers::Table;
use crate::spans::fill_spans;

// The first row is the observed one; the rows up to the greatest set are those of the comparison sets.
pub(crate) fn fill_columns(
    rows: &[u32],
    width: usize,
    greatest: usize,
    observed: &mut [u32],
    lower: &mut [u32],
    upper: &mut [u32],
) -> Table
    requires { ColumnsFit rows.now width greatest observed.old lower.old upper.old }
    ensures { ColumnsFilled rows.now width greatest observed.old lower.old upper.old result observed.new lower.new upper.new }
{
    observed[..width].copy_from_slice(&rows[..width]);
    if greatest == 0 {
        return Table::Observed;
    }
    fill_spans(
        rows,
        width,
        greatest,
        &mut lower[..width],
        &mut upper[..width],
    );
    Table::Compared
}
