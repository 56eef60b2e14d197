// The set, the edge and the offset of each report, in three lists beside one another. Nothing is checked: validate does that.
#[derive(Clone, Copy)]
pub struct Reports<'a> {
    pub sets: &'a [u32],
    pub edges: &'a [u32],
    pub offsets: &'a [u32],
}
