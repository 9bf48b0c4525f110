// Diagrams of targets and constraints. The order in which nodes are made is fixed, so that their numbers and the place
// where a table gets full are exact.
ghost use Rattle.std.specs.Prelude.{◌≡◌, ◌+◌, ◌-◌, ◌<◌, ◌≤◌, length};
ghost use Rattle.diagram.specs.Building.{Builds};
ghost use Rattle.diagram.specs.Held.{room_of, store_of};
ghost use Rattle.diagram.specs.Store.{Grown, Later, made, node_of};
ghost use Rattle.bench.specs.Building as building;
ghost use Rattle.bench.specs.Building.{From, FromAll, ToldRow};

use diagram::{Diagrams, Node, TableFull};

// The pairs of an attribute: so many from `start` on.
#[derive(Clone, Copy)]
pub(crate) struct Span {
    pub(crate) start: u32,
    pub(crate) count: u32,
    ghost few: { start + count ≤ 48 },
}

// A reference for a node whose parts test later pairs. Pairs are words of a node, and no type of their own: each function has
// its own bound on them.
fn node(diagrams: &mut Diagrams, pair: u32, low: u32, high: u32) -> Result<u32, TableFull>
    requires small { pair < 48 }
    requires before_low { Later (store_of diagrams.old) pair low }
    requires before_high { Later (store_of diagrams.old) pair high }
    ensures { Builds (made (room_of diagrams.old) (store_of diagrams.old) (node_of pair low high)) diagrams.old diagrams.new result }
{
    diagrams
        .make(Node { pair, low, high })
        .map_err(|_| TableFull)
}

// `high` where one of the pairs from `first` to before `end` is present, else `low`.
fn chain(
    diagrams: &mut Diagrams,
    first: u32,
    end: u32,
    low: u32,
    high: u32,
) -> Result<u32, TableFull>
    requires order { first ≤ end }
    requires small { end ≤ 48 }
    requires before_low { From (store_of diagrams.old) end low }
    requires before_high { From (store_of diagrams.old) end high }
    ensures { Builds (building.chain (room_of diagrams.old) (store_of diagrams.old) first (end - first) low high) diagrams.old diagrams.new result }
{
    let mut r = low;
    for j in (first..end).rev() {
        r = node(diagrams, j, r, high)?;
    }
    Ok(r)
}

// The target of a pair: 1 where the query has the pair, 2 where it has no pair of the attribute, else 0.
pub(crate) fn target(diagrams: &mut Diagrams, span: Span, pair: u32) -> Result<u32, TableFull>
    requires from { span.start ≤ pair }
    requires to { pair < span.start + span.count }
    ensures built { Builds (building.target (room_of diagrams.old) (store_of diagrams.old) span.start span.count pair) diagrams.old diagrams.new result }
    ensures means { building.IsTarget (store_of diagrams.new) span.start span.count pair result }
{
    let after = chain(diagrams, pair + 1, span.start + span.count, 2, 0)?;
    let here = node(diagrams, pair, after, 1)?;
    if span.start == pair {
        return Ok(here);
    }
    let only = node(diagrams, pair, 0, 1)?;
    chain(diagrams, span.start, pair, here, only)
}

// The exclusion of two pairs: 0 where the query has both, else 1.
pub(crate) fn exclusion(diagrams: &mut Diagrams, first: u32, second: u32) -> Result<u32, TableFull>
    requires order { first < second }
    requires small { second < 48 }
    ensures built { Builds (building.exclusion (room_of diagrams.old) (store_of diagrams.old) first second) diagrams.old diagrams.new result }
    ensures means { building.IsExclusion (store_of diagrams.new) first second result }
{
    let without = node(diagrams, second, 1, 0)?;
    node(diagrams, first, 1, without)
}

// How many pairs of an attribute may be present.
#[derive(Clone, Copy)]
pub(crate) enum Limit {
    AtMost(u8),
    AtLeast(u8),
}

impl Limit {
    // Whether it is met where so many pairs are present.
    fn met(self, seen: usize) -> bool
        ensures { result ≡ building.is_met self seen }
    {
        match self {
            Limit::AtMost(k) => seen <= k as usize,
            Limit::AtLeast(k) => k as usize <= seen,
        }
    }
}

// A row is an array, and no vector that is popped: it keeps all its entries, and how many of them are replaced follows from the
// pair, so that no count stands beside it.
//
// The most entries that a row has: one for each count of pairs, from 0 to 48.
const PLACES: usize = 49;

// The row after the last pair: 1 at each count that meets the limit, else 0.
fn leaves(limit: Limit) -> [u32; PLACES]
    ensures { result ≡ building.leaves (building.is_met limit) 0 49 }
{
    let mut row = [0; PLACES];
    for (seen, leaf) in row.iter_mut().enumerate() {
        *leaf = u32::from(limit.met(seen));
    }
    row
}

// Replaces the first n entries of a row, each by the node of the pair over itself and the entry after it. `room` and `grown` are
// said of two values, as on the methods of `Diagrams`.
#[tactic(auto, using(diagram::proofs::Stands::grown_trans))]
fn next_row(diagrams: &mut Diagrams, row: &mut [u32], pair: u32, n: usize) -> Result<(), TableFull>
    requires small { pair < 48 }
    requires long { n < length row.old }
    requires later { FromAll (store_of diagrams.old) (pair + 1) n row.old }
    ensures told { ToldRow (building.next_row (room_of diagrams.old) (store_of diagrams.old) pair 0 n row.old) (store_of diagrams.new) row.new result }
    ensures room { room_of diagrams.new ≡ room_of diagrams.old }
    ensures grown { Grown (store_of diagrams.old) (store_of diagrams.new) }
{
    // an entry is replaced while the one after it is still read, so no iterator can lend them
    for c in 0..n {
        row[c] = node(diagrams, pair, row[c], row[c + 1])?;
    }
    Ok(())
}

// A row for each pair of an attribute, the last pair first, each one entry shorter than the row before; the last has one.
fn rows(diagrams: &mut Diagrams, span: Span, row: [u32; PLACES]) -> Result<u32, TableFull>
    requires { FromAll (store_of diagrams.old) (span.start + span.count) span.count row }
    ensures { Builds (building.rows (room_of diagrams.old) (store_of diagrams.old) span.start span.count row) diagrams.old diagrams.new result }
{
    let mut row = row;
    for j in (span.start..span.start + span.count).rev() {
        next_row(diagrams, &mut row, j, (j - span.start + 1) as usize)?;
    }
    Ok(row[0])
}

// A limit on an attribute: 1 where the query keeps it, else 0.
pub(crate) fn limited(diagrams: &mut Diagrams, span: Span, limit: Limit) -> Result<u32, TableFull>
    ensures built { Builds (building.limited (room_of diagrams.old) (store_of diagrams.old) span.start span.count limit) diagrams.old diagrams.new result }
    ensures means { building.IsLimit (store_of diagrams.new) span.start span.count limit result }
{
    let row = leaves(limit);
    rows(diagrams, span, row)
}
