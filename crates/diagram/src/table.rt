ghost use Rattle.std.specs.Prelude.{◌≡◌, ℕ, ◌+◌, ◌-◌, ◌*◌, ◌/◌, ◌<◌, ◌≤◌, true, ◌∷◌, is_err};
ghost use Rattle.diagram.specs.Store.{Fits, Sound, found, made};
ghost use Rattle.diagram.specs.Told.{Kept, Told};
ghost use Rattle.diagram.specs.Words.{Chained, bucket, capacity, node_at, stored};

use crate::LEAVES;
use crate::node::{HEAD, LINK, Node, SIZE, node_at, put_node};
use crate::spread::spread;

// A rule of the project: what writes the lent words takes a slice. So the functions below take a slice and a count, and require
// what the type of `Diagrams` holds.

// The table has no room for a node that is needed.
#[derive(Clone, Copy, Debug, PartialEq, Eq)]
pub struct TableFull;

// The bucket of a node.
pub(crate) fn bucket_of(many: usize, node: Node) -> usize
    requires some { 0 < many }
    requires few { many ≤ 65536 }
    ensures is { result ≡ bucket many node }
    ensures below { result < many }
{
    spread(many, node.pair, node.low, node.high)
}

// The reference of the node that equals this one, by a walk along its bucket's chain.
fn find(words: &[u32], fill: usize, b: usize, node: Node) -> Option<u32>
    requires chained { Chained words.now fill }
    requires here { b ≡ bucket (capacity words.now) node }
    requires below { b < capacity words.now }
    ensures { result ≡ found (stored words.now fill) node }
{
    let mut at = words[SIZE * b + HEAD] as usize;
    while let Some(k) = at.checked_sub(1) {
        if node_at(words, k) == node {
            return Some(LEAVES + k as u32);
        }
        at = words[SIZE * k + LINK] as usize;
    }
    None
}

// Enters node k, the newest, at the head of its bucket's chain.
pub(crate) fn enter(words: &mut [u32], k: usize, b: usize)
    requires chained { Chained words.old k }
    requires room { k < capacity words.old }
    requires here { b ≡ bucket (capacity words.old) (node_at words.old k) }
    requires below { b < capacity words.old }
    ensures chained { Chained words.new (k + 1) }
    ensures nodes { (j : ℕ) → node_at words.new j ≡ node_at words.old j }
{
    words[SIZE * k + LINK] = words[SIZE * b + HEAD];
    words[SIZE * b + HEAD] = (k + 1) as u32;
}

// A reference for the node: its low part where the parts are equal, else the standing node that equals it, else a new one.
pub(crate) fn make(words: &mut [u32], fill: &mut usize, node: Node) -> Result<u32, TableFull>
    requires chained { Chained words.old fill.old }
    requires sound { Sound (stored words.old fill.old) }
    requires fits { Fits (stored words.old fill.old) node }
    ensures told { Told (made (capacity words.old) (stored words.old fill.old) node) (stored words.new fill.new) result }
    ensures kept { Kept words.old fill.old words.new fill.new }
    ensures alike { is_err result ≡ true → stored words.new fill.new ≡ stored words.old fill.old }
{
    if node.low == node.high {
        return Ok(node.low);
    }
    let n = words.len() / SIZE;
    if n == 0 {
        return Err(TableFull);
    }
    let b = bucket_of(n, node);
    if let Some(r) = find(words, *fill, b, node) {
        return Ok(r);
    }
    let k = *fill;
    if k >= n {
        return Err(TableFull);
    }
    put_node(words, k, node);
    enter(words, k, b);
    *fill = k + 1;
    Ok(LEAVES + k as u32)
}

// Takes the newest nodes away, down to the mark, and out of their chains.
pub(crate) fn roll_back(words: &mut [u32], fill: usize, mark: usize)
    requires chained { Chained words.old fill }
    requires later { mark ≤ fill }
    ensures chained { Chained words.new mark }
    ensures stored { stored words.new mark ≡ stored words.old mark }
{
    let n = words.len() / SIZE;
    // by number: each turn writes the head of a bucket, in the words of another node
    for k in (mark..fill).rev() {
        let b = bucket_of(n, node_at(words, k));
        words[SIZE * b + HEAD] = words[SIZE * k + LINK];
    }
}
