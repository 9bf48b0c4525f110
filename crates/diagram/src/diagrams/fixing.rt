ghost use Rattle.std.specs.Prelude.{◌≡◌, ◌<◌, true, nat_lt};
ghost use Rattle.diagram.specs.Building.{Builds};
ghost use Rattle.diagram.specs.Calls.{Answers, stands};
ghost use Rattle.diagram.specs.Fixing.{fixed};
ghost use Rattle.diagram.specs.Held.{room_of, store_of};
ghost use Rattle.diagram.specs.Store.{Grown, eval, mark, put};
ghost use Rattle.diagram.specs.Told.{Gives};

use super::Diagrams;
use crate::PAIRS;
use crate::memo::Operation;
use crate::node::Node;
use crate::refusal::Refusal;
use crate::table::TableFull;

impl Diagrams<'_> {
    // The diagram with a pair fixed as present.
    pub fn fix(&mut self, pair: u32, a: u32) -> Result<u32, Refusal>
        ensures is { Answers (stands (store_of self.old) a) (nat_lt pair 48) (fixed (room_of self.old) (store_of self.old) pair a) (store_of self.old) (store_of self.new) result }
        ensures room { room_of self.new ≡ room_of self.old }
        ensures grown { Grown (store_of self.old) (store_of self.new) }
        ensures means { Gives (store_of self.new) (λ q. eval (store_of self.old) a (put q pair true)) result }
    {
        if !self.stands(a) {
            return Err(Refusal::Unknown);
        }
        if pair >= PAIRS {
            return Err(Refusal::Unordered);
        }
        let start = self.fill;
        let built = self.build_fixed(pair, a);
        self.settle(start, built)
    }

    // Fixes a pair as present: the high part at that pair; nodes of later pairs stay, and those of earlier pairs are built anew.
    fn build_fixed(&mut self, pair: u32, a: u32) -> Result<u32, TableFull>
        requires small { pair < 48 }
        requires stands { a < mark (store_of self.old) }
        ensures { Builds (fixed (room_of self.old) (store_of self.old) pair a) self.old self.new result }
    {
        let v = self.top(a);
        if v > pair {
            return Ok(a);
        }
        let (low, high) = self.parts(v, a);
        if v == pair {
            return Ok(high);
        }
        // no rule has a key that 4 divides
        let operation = Operation {
            key: 4 * (pair + 1),
            a,
            b: 0,
        };
        if let Some(r) = self.recall(operation) {
            return Ok(r);
        }
        let fixed_low = self.build_fixed(pair, low)?;
        let fixed_high = self.build_fixed(pair, high)?;
        let r = self.node(Node {
            pair: v,
            low: fixed_low,
            high: fixed_high,
        })?;
        self.note(operation, r);
        Ok(r)
    }
}
