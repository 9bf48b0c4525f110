ghost use Rattle.std.specs.Prelude.{◌≡◌, ◌<◌, true, ◌&&◌};
ghost use Rattle.diagram.specs.Building.{Builds};
ghost use Rattle.diagram.specs.Calls.{Answers, Compared, stands};
ghost use Rattle.diagram.specs.Combining.{combined};
ghost use Rattle.diagram.specs.Held.{room_of, store_of};
ghost use Rattle.diagram.specs.Rules.{entry, value_of};
ghost use Rattle.diagram.specs.Store.{Grown, eval, mark};
ghost use Rattle.diagram.specs.Told.{Gives};

use super::Diagrams;
use crate::PAIRS;
use crate::memo::Operation;
use crate::node::Node;
use crate::refusal::Refusal;
use crate::rule::Rule;
use crate::table::TableFull;

impl Diagrams<'_> {
    // The two diagrams combined by the rule.
    pub fn combine(&mut self, rule: Rule, a: u32, b: u32) -> Result<u32, Refusal>
        ensures is { Answers (stands (store_of self.old) a && stands (store_of self.old) b) true (combined (room_of self.old) (store_of self.old) (value_of rule) a b) (store_of self.old) (store_of self.new) result }
        ensures room { room_of self.new ≡ room_of self.old }
        ensures grown { Grown (store_of self.old) (store_of self.new) }
        ensures means { Gives (store_of self.new) (λ q. value_of rule (eval (store_of self.old) a q) (eval (store_of self.old) b q)) result }
    {
        if !self.both_stand(a, b) {
            return Err(Refusal::Unknown);
        }
        let start = self.fill;
        let built = self.build_combined(rule, a, b);
        self.settle(start, built)
    }

    // The diagram with each leaf changed: code x becomes entry x, of which the three lowest bits count, or 0 where there is none.
    pub fn change(&mut self, entries: [u8; 3], a: u32) -> Result<u32, Refusal>
        ensures is { Answers (stands (store_of self.old) a) true (combined (room_of self.old) (store_of self.old) (λ x y. entry entries x) a 0) (store_of self.old) (store_of self.new) result }
        ensures room { room_of self.new ≡ room_of self.old }
        ensures grown { Grown (store_of self.old) (store_of self.new) }
        ensures means { Gives (store_of self.new) (λ q. entry entries (eval (store_of self.old) a q)) result }
    {
        self.combine(Rule::One(entries), a, 0)
    }

    // Whether a and b, combined by the rule, evaluate as c does at every query. The nodes that it takes to tell are given back.
    pub fn combines_to(&mut self, rule: Rule, a: u32, b: u32, c: u32) -> Result<bool, Refusal>
        ensures is { Compared (stands (store_of self.old) a && stands (store_of self.old) b) (stands (store_of self.old) c) (combined (room_of self.old) (store_of self.old) (value_of rule) a b) (λ q. value_of rule (eval (store_of self.old) a q) (eval (store_of self.old) b q)) (λ q. eval (store_of self.old) c q) result }
        ensures room { room_of self.new ≡ room_of self.old }
        ensures same { store_of self.new ≡ store_of self.old }
    {
        if !self.both_stand(a, b) || !self.stands(c) {
            return Err(Refusal::Unknown);
        }
        let start = self.fill;
        let built = self.build_combined(rule, a, b);
        self.roll_back(start);
        Ok(built? == c)
    }

    // Combines two diagrams by a rule: low parts first, then the high parts, then their node.
    pub(super) fn build_combined(&mut self, rule: Rule, a: u32, b: u32) -> Result<u32, TableFull>
        requires left { a < mark (store_of self.old) }
        requires right { b < mark (store_of self.old) }
        ensures { Builds (combined (room_of self.old) (store_of self.old) (value_of rule) a b) self.old self.new result }
    {
        let v = self.top(a).min(self.top(b));
        if v >= PAIRS {
            return Ok(rule.value(a, b));
        }
        let operation = Operation {
            key: rule.key(),
            a,
            b,
        };
        if let Some(r) = self.recall(operation) {
            return Ok(r);
        }
        let (al, ah) = self.parts(v, a);
        let (bl, bh) = self.parts(v, b);
        let low = self.build_combined(rule, al, bl)?;
        let high = self.build_combined(rule, ah, bh)?;
        let r = self.node(Node { pair: v, low, high })?;
        self.note(operation, r);
        Ok(r)
    }
}
