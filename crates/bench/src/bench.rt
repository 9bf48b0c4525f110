ghost use Rattle.std.specs.Prelude.{ℕ, ◌<◌, ◌≤◌, slice_index_or};
ghost use Rattle.diagram.specs.Held.{store_of};
ghost use Rattle.diagram.specs.Store.{mark};
ghost use Rattle.bench.specs.Shelves.{pairs_of, reference};
ghost use Rattle.bench.specs.declared.shelf.Shelf.TheVariants as shelf;

use crate::shelf::Shelf;
use diagram::Diagrams;

mod asking;
mod changing;
mod opening;

// A bench: diagrams in lent memory, and four shelves. Calls name a shelf by a plain number: any may come, and a wrong one is
// refused.
#[derive(Drop)]
pub struct Bench<'m> {
    diagrams: Diagrams<'m>,
    shelves: [Shelf; 4],
    // every reference on a shelf stands in the table
    ghost stand: { ((i k : ℕ) → reference (slice_index_or shelves i shelf.Empty) k < mark (store_of diagrams)) },
    ghost pairs: { ((i : ℕ) → pairs_of (slice_index_or shelves i shelf.Empty) ≤ 48) },
}
