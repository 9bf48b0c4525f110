ghost use Rattle.std.specs.Prelude.{◌≡◌, ◌<◌};
ghost use Rattle.diagram.specs.Calls.{Valued, asked};
ghost use Rattle.diagram.specs.Held.{seen_in};
ghost use Rattle.diagram.specs.Store.{eval, mark};

use super::View;
use crate::LEAVES;
use crate::node::node_at;
use crate::refusal::Refusal;

impl View<'_> {
    // The leaf that a query comes to: entry i says whether pair i is present.
    pub fn value(&self, query: [bool; 48], a: u32) -> Result<u32, Refusal>
        ensures { Valued (seen_in self.now) a query result }
    {
        if a as usize >= LEAVES as usize + self.fill {
            return Err(Refusal::Unknown);
        }
        Ok(self.leaf(query, a))
    }

    // The leaf that a query comes to from a reference that stands.
    fn leaf(&self, query: [bool; 48], a: u32) -> u32
        requires { a < mark (seen_in self.now) }
        ensures { result ≡ eval (seen_in self.now) a (asked query) }
    {
        let mut r = a;
        while r >= LEAVES {
            let node = node_at(self.words, (r - LEAVES) as usize);
            r = if query[node.pair as usize] {
                node.high
            } else {
                node.low
            };
        }
        r
    }
}
