// Two edges, and the routes between their ends.
ghost use Rattle.std.specs.Prelude.{◌≡◌};
ghost use Rattle.edge_pair.specs.Edges.{side_of, code_between_of};

// Two edges: their lengths, whether they are one, and the codes of the distances from the first's ends to the second's (first to first,
// first to second, and so on), as they stand in a table: 0 where there is no route within the bound, else one more than the metres.
#[derive(Clone, Copy)]
pub struct EdgePair {
    pub length1: u32,
    pub length2: u32,
    pub same: bool,
    pub ff: u32,
    pub fs: u32,
    pub sf: u32,
    pub ss: u32,
}

// The code of the distance between an end of the first edge and one of the second.
pub fn code_between(edges: EdgePair, first1: bool, first2: bool) -> u32
    ensures { result ≡ code_between_of edges (side_of first1) (side_of first2) }
{
    if first1 {
        if first2 {
            return edges.ff;
        }
        return edges.fs;
    }
    if first2 {
        return edges.sf;
    }
    edges.ss
}
