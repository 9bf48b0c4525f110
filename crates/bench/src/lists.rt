ghost use Rattle.std.specs.Prelude.{◌≡◌, ◌<◌};
ghost use Rattle.diagram.specs.Held.{room_of, store_of};
ghost use Rattle.diagram.specs.Store.{Grown, mark};
ghost use Rattle.bench.specs.Closing.{FillAfter, ToldLists, listing};

use crate::shelf::{Draft, Lists};
use crate::steps::{close, combine};
use diagram::{DecisionSets, Diagrams, Mark, Rule, TableFull, Truth};

// The set of a decision, 1 for deny, 2 for allow and 4 for not applicable, where the query is valid; else the empty set.
const SETS: Rule = Rule::Two([0, 0, 0, 1, 2, 4, 0, 0, 0]);

// Builds what a closed shelf lists and reaches. `room` and `grown` are said of two values, as on the methods of `Diagrams`.
#[tactic(auto, using(diagram::proofs::Stands::grown_trans))]
fn build(diagrams: &mut Diagrams, draft: Draft) -> Result<Lists, TableFull>
    requires valid { draft.valid < mark (store_of diagrams.old) }
    requires decides { draft.decides < mark (store_of diagrams.old) }
    ensures told { ToldLists (listing (room_of diagrams.old) (store_of diagrams.old) draft) (store_of diagrams.new) result }
    ensures room { room_of diagrams.new ≡ room_of diagrams.old }
    ensures grown { Grown (store_of diagrams.old) (store_of diagrams.new) }
{
    let sets = combine(diagrams, SETS, draft.valid, draft.decides)?;
    let unions = close::<DecisionSets>(diagrams, sets)?;
    let lists = combine(diagrams, Rule::Where, draft.valid, unions)?;
    let reaches = close::<Truth>(diagrams, draft.valid)?;
    Ok(Lists { lists, reaches })
}

// Builds them, and counts their nodes in; where the table is full on the way, the guard puts the count back.
pub(crate) fn lists(
    diagrams: &mut Diagrams,
    fill: &mut usize,
    draft: Draft,
) -> Result<Lists, TableFull>
    requires valid { draft.valid < mark (store_of diagrams.old) }
    requires decides { draft.decides < mark (store_of diagrams.old) }
    ensures told { ToldLists (listing (room_of diagrams.old) (store_of diagrams.old) draft) (store_of diagrams.new) result }
    ensures room { room_of diagrams.new ≡ room_of diagrams.old }
    ensures grown { Grown (store_of diagrams.old) (store_of diagrams.new) }
    ensures fill { FillAfter fill.old (store_of diagrams.new) result fill.new }
{
    let start = *fill;
    let mut mark = Mark { fill, start };
    let lists = build(diagrams, draft)?;
    mark.start = diagrams.len();
    Ok(lists)
}
