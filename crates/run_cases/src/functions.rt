// The functions that cases are about. A section of stdin names its function by a number.

#[derive(Clone, Copy)]
pub(crate) enum Function {
    OnLists(OnLists),
    OnNetwork(OnNetwork),
    OnText(OnText),
    PrintRefusal,
}

// Functions of lists.
#[derive(Clone, Copy)]
pub(crate) enum OnLists {
    CheckThresholds,
    LayOut,
}

// Functions of lists that begin with a network.
#[derive(Clone, Copy)]
pub(crate) enum OnNetwork {
    CheckNetwork,
    CheckNodes,
    CheckLocations,
    CheckSets,
    CheckSet,
    CheckLaidOut,
    EventsOn,
    NodeDistance,
    BoundedNodeDistance,
    LocationDistance,
    PerimeterCount,
    DistancesFrom,
    EndDistances,
    Counts,
    Augment,
    Cursors,
    PairCounts,
}

// Functions of a text and lists.
#[derive(Clone, Copy)]
pub(crate) enum OnText {
    ReadThresholds,
    ReadEvents,
    ReadNetwork,
}

impl Function {
    // The function of a number: the table of distances has 13 and every number that is no other's; none has 0, which ends the cases.
    pub(crate) fn from_number(number: u32) -> Option<Function> {
        let function = match number {
            1 => Function::OnNetwork(OnNetwork::CheckNetwork),
            2 => Function::OnNetwork(OnNetwork::CheckNodes),
            3 => Function::OnNetwork(OnNetwork::CheckLocations),
            4 => Function::OnNetwork(OnNetwork::CheckSets),
            5 => Function::OnNetwork(OnNetwork::CheckSet),
            6 => Function::OnNetwork(OnNetwork::CheckLaidOut),
            7 => Function::OnNetwork(OnNetwork::EventsOn),
            8 => Function::OnNetwork(OnNetwork::NodeDistance),
            9 => Function::OnNetwork(OnNetwork::BoundedNodeDistance),
            10 => Function::OnNetwork(OnNetwork::LocationDistance),
            11 => Function::OnNetwork(OnNetwork::PerimeterCount),
            12 => Function::OnNetwork(OnNetwork::DistancesFrom),
            14 => Function::OnLists(OnLists::CheckThresholds),
            15 => Function::OnLists(OnLists::LayOut),
            16 => Function::OnNetwork(OnNetwork::Counts),
            17 => Function::OnNetwork(OnNetwork::Augment),
            18 => Function::OnNetwork(OnNetwork::Cursors),
            19 => Function::OnNetwork(OnNetwork::PairCounts),
            20 => Function::OnText(OnText::ReadThresholds),
            21 => Function::OnText(OnText::ReadEvents),
            22 => Function::OnText(OnText::ReadNetwork),
            23 => Function::PrintRefusal,
            0 => return None,
            _ => Function::OnNetwork(OnNetwork::EndDistances),
        };
        Some(function)
    }
}
