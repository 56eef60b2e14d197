// Which columns the table has.
#[derive(Clone, Copy)]
pub enum Table {
    // There are no comparison sets: the observed counts alone.
    Observed,
    // Least and greatest beside the observed counts.
    Compared,
}
