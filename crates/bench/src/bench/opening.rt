ghost use Rattle.std.specs.Prelude.{◌≡◌, length};
ghost use Rattle.bench.specs.State.{fresh, nodes_in, state_of};

use super::Bench;
use crate::shelf::Shelf;
use diagram::Diagrams;

impl<'m> Bench<'m> {
    // A bench in lent memory, whatever it held: seven words of `nodes` to a node, at most 65,536 nodes, and four words of
    // `memo` to an entry, at most 4,096. Its shelves are empty.
    pub fn open(nodes: &'m mut [u32], memo: &'m mut [u32]) -> Self
        ensures { state_of result ≡ fresh (nodes_in (length nodes.old)) }
    {
        Bench {
            diagrams: Diagrams::open(nodes, memo),
            shelves: [Shelf::Empty; 4],
        }
    }
}
