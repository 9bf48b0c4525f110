ghost use Rattle.std.specs.Prelude.{◌≡◌, ◌<◌};
ghost use Rattle.diagram.specs.Closing.{closed};
ghost use Rattle.diagram.specs.Combining.{combined};
ghost use Rattle.diagram.specs.Building.{Builds};
ghost use Rattle.diagram.specs.Held.{room_of, store_of};
ghost use Rattle.diagram.specs.Rules.{value_of};
ghost use Rattle.diagram.specs.Store.{eval, mark};
ghost use Rattle.diagram.specs.Told.{Closes, Gives};

use diagram::{Diagrams, Kind, Rule, TableFull};

// Two diagrams that stand, combined by a rule: only a full table can refuse.
pub(crate) fn combine(diagrams: &mut Diagrams, rule: Rule, a: u32, b: u32) -> Result<u32, TableFull>
    requires left { a < mark (store_of diagrams.old) }
    requires right { b < mark (store_of diagrams.old) }
    ensures built { Builds (combined (room_of diagrams.old) (store_of diagrams.old) (value_of rule) a b) diagrams.old diagrams.new result }
    ensures means { Gives (store_of diagrams.new) (λ q. value_of rule (eval (store_of diagrams.old) a q) (eval (store_of diagrams.old) b q)) result }
{
    diagrams.combine(rule, a, b).map_err(|_| TableFull)
}

// A diagram that stands, closed by the join of a kind: only a full table can refuse.
pub(crate) fn close<K: Kind>(diagrams: &mut Diagrams, a: u32) -> Result<u32, TableFull>
    requires stands { a < mark (store_of diagrams.old) }
    ensures built { Builds (closed (room_of diagrams.old) (store_of diagrams.old) K.Kind.join a) diagrams.old diagrams.new result }
    ensures means { Closes K.Kind.codes K.Kind.join (store_of diagrams.old) a (store_of diagrams.new) result }
{
    diagrams.close::<K>(a).map_err(|_| TableFull)
}
