ghost use Rattle.std.specs.Prelude.{◌≡◌, ◌<◌, true};
ghost use Rattle.diagram.specs.Building.{Builds};
ghost use Rattle.diagram.specs.Calls.{Answers, stands};
ghost use Rattle.diagram.specs.Closing.{closed};
ghost use Rattle.diagram.specs.Held.{room_of, store_of};
ghost use Rattle.diagram.specs.Rules.{value_of};
ghost use Rattle.diagram.specs.Store.{Grown, mark};
ghost use Rattle.diagram.specs.Told.{Closes};

use super::Diagrams;
use crate::PAIRS;
use crate::kind::Kind;
use crate::memo::Operation;
use crate::node::Node;
use crate::refusal::Refusal;
use crate::rule::Rule;
use crate::table::TableFull;

// Keys from here on are of closings: a closing's is this more than its join's, and every rule's key is below this.
const CLOSING: u32 = 536870912;

impl Diagrams<'_> {
    // The diagram closed by the join of a kind of leaf: at every query the least upper bound of what it says at all queries
    // that contain it, where all its leaves are codes of the kind.
    pub fn close<K: Kind>(&mut self, a: u32) -> Result<u32, Refusal>
        ensures is { Answers (stands (store_of self.old) a) true (closed (room_of self.old) (store_of self.old) K.Kind.join a) (store_of self.old) (store_of self.new) result }
        ensures room { room_of self.new ≡ room_of self.old }
        ensures grown { Grown (store_of self.old) (store_of self.new) }
        ensures means { Closes K.Kind.codes K.Kind.join (store_of self.old) a (store_of self.new) result }
    {
        if !self.stands(a) {
            return Err(Refusal::Unknown);
        }
        let start = self.fill;
        let built = self.build_closed(K::rule(), a);
        self.settle(start, built)
    }

    // Closes a diagram by a join: a leaf stays; of a node the low part is closed, then the high part, and the join of the two is
    // the new low part.
    fn build_closed(&mut self, rule: Rule, a: u32) -> Result<u32, TableFull>
        requires { a < mark (store_of self.old) }
        ensures { Builds (closed (room_of self.old) (store_of self.old) (value_of rule) a) self.old self.new result }
    {
        let v = self.top(a);
        if v >= PAIRS {
            return Ok(a);
        }
        let operation = Operation {
            key: CLOSING + rule.key(),
            a,
            b: 0,
        };
        if let Some(r) = self.recall(operation) {
            return Ok(r);
        }
        let (low, high) = self.parts(v, a);
        let closed_low = self.build_closed(rule, low)?;
        let closed_high = self.build_closed(rule, high)?;
        let joined = self.build_combined(rule, closed_low, closed_high)?;
        let r = self.node(Node {
            pair: v,
            low: joined,
            high: closed_high,
        })?;
        self.note(operation, r);
        Ok(r)
    }
}
