ghost use Rattle.std.specs.Prelude.{◌≡◌, ◌<◌, true, is_err, IfSome};
ghost use Rattle.diagram.specs.Building.{Builds, Settled};
ghost use Rattle.diagram.specs.Combining.{high_at, low_at};
ghost use Rattle.diagram.specs.Held.{room_of, store_of};
ghost use Rattle.diagram.specs.Memo.{Known, noted, recalled};
ghost use Rattle.diagram.specs.Store.{Fits, made, mark, top};

use super::Diagrams;
use crate::memo::Operation;
use crate::node::{Node, SIZE, node_at};
use crate::refusal::Refusal;
use crate::table::TableFull;
use crate::{LEAVES, PAIRS};

// The steps of building. A reference that stands is a word with a bound on it, and no type: the bound moves with each new node.
impl Diagrams<'_> {
    // The pair that a reference tests, and 48 at a leaf.
    pub(super) fn top(&self, r: u32) -> u32
        requires { r < mark (store_of self.now) }
        ensures { result ≡ top (store_of self.now) r }
    {
        if r < LEAVES {
            PAIRS
        } else {
            self.words[SIZE * (r - LEAVES) as usize]
        }
    }

    // What a reference comes to once the pair v is absent, and what once it is present.
    pub(super) fn parts(&self, v: u32, r: u32) -> (u32, u32)
        requires stands { r < mark (store_of self.now) }
        requires small { v < 48 }
        ensures low { result.0 ≡ low_at (store_of self.now) v r }
        ensures high { result.1 ≡ high_at (store_of self.now) v r }
    {
        if r < LEAVES {
            return (r, r);
        }
        let node = node_at(self.words, (r - LEAVES) as usize);
        if node.pair == v {
            (node.low, node.high)
        } else {
            (r, r)
        }
    }

    // A reference for a node that fits.
    pub(super) fn node(&mut self, node: Node) -> Result<u32, TableFull>
        requires { Fits (store_of self.old) node }
        ensures builds { Builds (made (room_of self.old) (store_of self.old) node) self.old self.new result }
        ensures alike { is_err result ≡ true → store_of self.new ≡ store_of self.old }
    {
        crate::table::make(self.words, &mut self.fill, node)
    }

    // The result that the memo has of an operation: doing it anew would give it, with no new node.
    pub(super) fn recall(&self, operation: Operation) -> Option<u32>
        requires { 0 < operation.key }
        ensures is { result ≡ recalled self.now.memo.now operation }
        ensures known { IfSome result (λ r. Known (store_of self.now) operation r) }
    {
        crate::memo::recall(self.memo, operation)
    }

    // Keeps a result in the memo.
    pub(super) fn note(&mut self, operation: Operation, r: u32)
        requires { Known (store_of self.old) operation r }
        ensures memo { self.new.memo.now ≡ noted self.old.memo.now operation r }
        ensures store { store_of self.new ≡ store_of self.old }
        ensures room { room_of self.new ≡ room_of self.old }
    {
        crate::memo::note(self.memo, operation, r);
    }

    // Ends a building: where the table was full on the way, takes away again what was made since `start` nodes stood.
    pub(super) fn settle(
        &mut self,
        start: usize,
        built: Result<u32, TableFull>,
    ) -> Result<u32, Refusal>
        ensures { Settled self.old start built self.new result }
    {
        if built.is_err() {
            self.roll_back(start);
        }
        Ok(built?)
    }
}
