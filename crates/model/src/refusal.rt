// What a check answers when it refuses: which fault it found, and where.
ghost use Rattle.std.specs.Prelude.{◌≡◌};
ghost use Rattle.model.specs.Refusal.{fault_number};

// The faults, by rising number. The number 8 is unused, since a leg may join a node to itself.
#[derive(Clone, Copy, Debug, PartialEq, Eq, PartialOrd, Ord)]
pub enum Fault {
    TooLong = 1,
    ListsDiffer = 2,
    NoForm = 3,
    NoHeader = 4,
    Misplaced = 5,
    BadSizes = 6,
    BadNode = 7,
    BadLength = 9,
    NotTurned = 10,
    WrongArcs = 11,
    BadSet = 12,
    NoEdge = 13,
    BeyondEdge = 14,
    TooManyEvents = 15,
    UnequalSets = 16,
    NotInOrder = 17,
    BadThresholds = 18,
    NotRising = 19,
}

// A fault and its place. Refusals are ordered by the fault's number, then by the place.
#[derive(Clone, Copy, Debug, PartialEq, Eq, PartialOrd, Ord)]
pub struct Refusal {
    pub fault: Fault,
    pub place: usize,
}

impl Fault {
    // The number by which users know the fault.
    pub fn number(self) -> u32
        ensures { result ≡ fault_number self }
    {
        self as u32
    }
}
