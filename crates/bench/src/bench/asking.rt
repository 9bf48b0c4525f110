ghost use Rattle.std.specs.Prelude.{◌≡◌, ℕ, ◌<◌, ◌≤◌};
ghost use Rattle.diagram.specs.Calls.{asked};
ghost use Rattle.diagram.specs.Store.{mark};
ghost use Rattle.bench.specs.Asking.{ClosedStands, DraftStands, closed_at, decided, decision_of, extended, leaf_of, policy_at, query_of, reached, rooted, shelf_at};
ghost use Rattle.bench.specs.State.{state_of};

use super::Bench;
use crate::fault::{Fault, Reason};
use crate::shelf::{Draft, Lists, Shelf};
use policy::Decision;
use source::Source;

// Not by the set of `query_of`, which would be taken apart again: the walk asks for one pair at a time.
//
// The pairs below n that the source tells, entry i for pair i; it is questioned for each of them, in rising order.
fn ask<S: Source>(source: &S, n: u8) -> [bool; 48]
    requires { n ≤ 48 }
    ensures { (i : ℕ) → asked result i ≡ query_of n (S.Source.meaning source.now) i }
{
    let mut query = [false; 48];
    // by pair, and not by `array::from_fn`, of which the proof did not close
    for pair in 0..n {
        query[pair as usize] = source.tells(pair);
    }
    query
}

// The decision that a leaf stands for. A leaf is a word of the table, and any above 1 counts as not applicable.
fn decision(leaf: u32) -> Decision
    ensures { result ≡ decision_of leaf }
{
    match leaf {
        0 => Decision::Deny,
        1 => Decision::Allow,
        _ => Decision::NotApplicable,
    }
}

impl Bench<'_> {
    // What stands on the shelf, or a refusal where there is no such shelf.
    pub(super) fn at(&self, shelf: u8) -> Result<Shelf, Fault>
        ensures { result ≡ shelf_at (state_of self.now) shelf }
    {
        self.shelves
            .get(shelf as usize)
            .copied()
            .ok_or(Reason::NoShelf.on(shelf))
    }

    // The policy on the shelf, draft or closed. This, `closed` and `draft` differ in what they refuse and hand out.
    pub(super) fn policy(&self, shelf: u8) -> Result<Draft, Fault>
        ensures is { result ≡ policy_at (state_of self.now) shelf }
        ensures stands { DraftStands (state_of self.now) result }
    {
        match self.at(shelf)? {
            Shelf::Empty => Err(Reason::Empty.on(shelf)),
            Shelf::Draft(draft) | Shelf::Closed(draft, _) => Ok(draft),
        }
    }

    // The policy on the shelf and its lists, where it is closed.
    fn closed(&self, shelf: u8) -> Result<(Draft, Lists), Fault>
        ensures is { result ≡ closed_at (state_of self.now) shelf }
        ensures stands { ClosedStands (state_of self.now) result }
    {
        match self.at(shelf)? {
            Shelf::Empty => Err(Reason::Empty.on(shelf)),
            Shelf::Draft(_) => Err(Reason::NotClosed.on(shelf)),
            Shelf::Closed(draft, lists) => Ok((draft, lists)),
        }
    }

    // The leaf that the source's query comes to.
    fn leaf<S: Source>(&self, draft: Draft, source: &S, a: u32) -> u32
        requires few { draft.pairs ≤ 48 }
        requires stands { a < mark (state_of self.now).store }
        ensures is { result ≡ leaf_of (state_of self.now) draft (S.Source.meaning source.now) a }
        ensures code { result < 8 }
    {
        self.diagrams.value(ask(source, draft.pairs), a).unwrap()
    }

    // The decision of the source's query, valid or not.
    pub fn decide<S: Source>(&self, shelf: u8, source: &S) -> Result<Decision, Fault>
        ensures { result ≡ decided (state_of self.now) shelf (S.Source.meaning source.now) }
    {
        let draft = self.policy(shelf)?;
        Ok(decision(self.leaf(draft, source, draft.decides)))
    }

    // Every decision that the pairs which the source does not tell could still bring, as a set: deny adds 1, allow 2 and
    // not applicable 4: the number is a leaf of the table. Refused where the source's query is not valid.
    pub fn extend<S: Source>(&self, shelf: u8, source: &S) -> Result<u8, Fault>
        ensures { result ≡ extended (state_of self.now) shelf (S.Source.meaning source.now) }
    {
        let (draft, lists) = self.closed(shelf)?;
        let set = self.leaf(draft, source, lists.lists);
        if set == 0 {
            return Err(Reason::NotValid.on(shelf));
        }
        Ok(set as u8)
    }

    // Whether some valid query contains the source's.
    pub fn reach<S: Source>(&self, shelf: u8, source: &S) -> Result<bool, Fault>
        ensures { result ≡ reached (state_of self.now) shelf (S.Source.meaning source.now) }
    {
        let (draft, lists) = self.closed(shelf)?;
        Ok(self.leaf(draft, source, lists.reaches) == 1)
    }

    // The number of the diagram of lists: closed shelves that list alike at every source have one root.
    pub fn root(&self, shelf: u8) -> Result<u32, Fault>
        ensures { result ≡ rooted (state_of self.now) shelf }
    {
        let (_, lists) = self.closed(shelf)?;
        Ok(lists.lists)
    }
}
