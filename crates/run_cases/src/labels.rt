// The names of answer lists.

#[derive(Clone, Copy)]
pub(crate) enum Label {
    RangeQuery,
    CountAugmentation,
    NeighborSharing,
    NearFirst,
    NearSecond,
    Positions,
    Moves,
    FirstNodes,
    SecondNodes,
    Lengths,
    Sets,
    Edges,
    Offsets,
    Thresholds,
}

impl Label {
    pub(crate) fn name(self) -> &'static str {
        match self {
            Label::RangeQuery => "range query",
            Label::CountAugmentation => "count augmentation",
            Label::NeighborSharing => "neighbor sharing",
            Label::NearFirst => "no farther from the first end",
            Label::NearSecond => "no farther from the second end",
            Label::Positions => "positions",
            Label::Moves => "moves",
            Label::FirstNodes => "first nodes",
            Label::SecondNodes => "second nodes",
            Label::Lengths => "lengths",
            Label::Sets => "sets",
            Label::Edges => "edges",
            Label::Offsets => "offsets",
            Label::Thresholds => "thresholds",
        }
    }
}
