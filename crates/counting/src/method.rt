// The three methods of document 01, and `Cheapest`, which takes for each two runs the kernel that should be fastest for them.
#[derive(Clone, Copy)]
pub enum Method {
    RangeQuery,
    CountAugmentation,
    NeighborSharing,
    Cheapest,
}
