ghost use Rattle.std.specs.Prelude.{◌≡◌, ℕ, ◌+◌, ◌-◌, ◌*◌, ◌<◌, ◌≤◌, true, ◌||◌, map, slice_index};
ghost use Rattle.diagram.specs.Store.{Sound};
ghost use Rattle.diagram.specs.Sweeping.{Closed, OnlyMarks, mark_at, marked, marking, new_at, new_root, packed, reached, swept, wanted};
ghost use Rattle.diagram.specs.Words.{Chained, capacity, node_at, stored};

use crate::LEAVES;
use crate::node::{COUNT, HEAD, Node, SIZE, node_at, put_node};
use crate::table::{bucket_of, enter};

// The functions below take a slice and a count: on the way the words are no table, so that `Diagrams` cannot hold them.

// A node's mark stands where its count would: 0 for none, and once the node has moved, its new reference. It is a word, and no
// `Option`, since the memory is words.
const MARK: usize = COUNT;

// Empties the chains, by the buckets of the nodes in use, and takes their marks away.
fn wipe(words: &mut [u32], fill: usize)
    requires { Chained words.old fill }
    ensures chained { Chained words.new 0 }
    ensures unmarked { (k : ℕ) → k < fill → mark_at words.new k ≡ 0 }
    ensures nodes { (k : ℕ) → node_at words.new k ≡ node_at words.old k }
{
    let n = words.len() / SIZE;
    // by number: each turn also writes the head of a bucket, in the words of another node
    for k in 0..fill {
        let b = bucket_of(n, node_at(words, k));
        words[SIZE * b + HEAD] = 0;
        words[SIZE * k + MARK] = 0;
    }
}

// Marks the node of a reference; a leaf has no mark.
fn set_mark(words: &mut [u32], r: u32)
    requires { r < 8 + capacity words.old }
    ensures { words.new ≡ marking words.old r }
{
    if r >= LEAVES {
        words[SIZE * (r - LEAVES) as usize + MARK] = 1;
    }
}

// Marks the nodes of the roots; a root that does not stand in the table has none.
fn mark_roots(words: &mut [u32], fill: usize, roots: &[u32])
    requires few { capacity words.old ≤ 65536 }
    requires within { fill ≤ capacity words.old }
    ensures only { OnlyMarks words.old words.new }
    ensures is { (r : ℕ) → 8 ≤ r → r < 8 + fill → marked words.new r ≡ (marked words.old r || wanted roots.now r) }
{
    let end = LEAVES + fill as u32;
    for &r in roots {
        if r < end {
            set_mark(words, r);
        }
    }
}

// Marks the parts of every marked node. Newer nodes come first: whatever refers to a node is seen before it.
fn mark_parts(words: &mut [u32], fill: usize)
    requires within { fill ≤ capacity words.old }
    requires sound { Sound (stored words.old fill) }
    ensures only { OnlyMarks words.old words.new }
    ensures is { (r : ℕ) → 8 ≤ r → r < 8 + fill → marked words.new r ≡ reached (stored words.old fill) (marked words.old) r }
{
    // by number: each turn also writes the marks of two other nodes
    for k in (0..fill).rev() {
        if words[SIZE * k + MARK] != 0 {
            let node = node_at(words, k);
            set_mark(words, node.low);
            set_mark(words, node.high);
        }
    }
}

// The new reference of what has moved; a leaf keeps its own.
fn new_at(words: &[u32], r: u32) -> u32
    requires { r < 8 + capacity words.now }
    ensures { result ≡ new_at words.now r }
{
    if r < LEAVES {
        r
    } else {
        words[SIZE * (r - LEAVES) as usize + MARK]
    }
}

// Moves the marked nodes down to the first places, in their order; how many they are. Each has the new references of its
// parts, which are older and have moved before it, and its mark becomes its own new reference.
fn pack(words: &mut [u32], fill: usize) -> usize
    requires few { capacity words.old ≤ 65536 }
    requires within { fill ≤ capacity words.old }
    requires sound { Sound (stored words.old fill) }
    requires closed { Closed words.old fill }
    ensures fewer { result ≤ fill }
    ensures store { stored words.new result ≡ (packed (stored words.old fill) (marked words.old)).store }
    ensures news { (r : ℕ) → 8 ≤ r → r < 8 + fill → marked words.old r ≡ true → mark_at words.new (r - 8) ≡ (packed (stored words.old fill) (marked words.old)).renumber r }
    ensures heads { (b : ℕ) → slice_index words.new (7 * b + 3) ≡ slice_index words.old (7 * b + 3) }
{
    let mut place = 0;
    // by number: each turn reads the marks of two other nodes, and writes a third
    for k in 0..fill {
        if words[SIZE * k + MARK] != 0 {
            let node = node_at(words, k);
            let low = new_at(words, node.low);
            let high = new_at(words, node.high);
            let pair = node.pair;
            put_node(words, place, Node { pair, low, high });
            words[SIZE * k + MARK] = LEAVES + place as u32;
            place += 1;
        }
    }
    place
}

// The new reference of a root; one that does not stand in the table is left as it is.
fn new_root(words: &[u32], fill: usize, r: u32) -> u32
    requires few { capacity words.now ≤ 65536 }
    requires within { fill ≤ capacity words.now }
    ensures { result ≡ new_root words.now fill r }
{
    if r < LEAVES + fill as u32 {
        new_at(words, r)
    } else {
        r
    }
}

// Gives each root its new reference.
fn translate(words: &[u32], fill: usize, roots: &mut [u32])
    requires few { capacity words.now ≤ 65536 }
    requires within { fill ≤ capacity words.now }
    ensures { roots.new ≡ map (new_root words.now fill) roots.old }
{
    for r in roots.iter_mut() {
        *r = new_root(words, fill, *r);
    }
}

// Enters the first nodes into the chains, which are empty.
fn link(words: &mut [u32], fill: usize)
    requires chained { Chained words.old 0 }
    requires within { fill ≤ capacity words.old }
    ensures chained { Chained words.new fill }
    ensures stored { stored words.new fill ≡ stored words.old fill }
{
    let n = words.len() / SIZE;
    // by number: each turn also writes the head of a bucket, in the words of another node
    for k in 0..fill {
        let b = bucket_of(n, node_at(words, k));
        enter(words, k, b);
    }
}

// Keeps the nodes that are reached from the roots, in their order; how many they are.
pub(crate) fn sweep(words: &mut [u32], fill: usize, roots: &mut [u32]) -> usize
    requires chained { Chained words.old fill }
    requires sound { Sound (stored words.old fill) }
    ensures chained { Chained words.new result }
    ensures store { stored words.new result ≡ (swept (stored words.old fill) (wanted roots.old)).store }
    ensures roots { roots.new ≡ map (swept (stored words.old fill) (wanted roots.old)).renumber roots.old }
{
    wipe(words, fill);
    mark_roots(words, fill, roots);
    mark_parts(words, fill);
    let kept = pack(words, fill);
    translate(words, fill, roots);
    link(words, kept);
    kept
}
