ghost use Rattle.std.specs.Prelude.{◌≡◌, ◌+◌, ◌*◌, ◌≤◌, length};
ghost use Rattle.diagram.specs.Words.{node_at, putting};

// A test of one pair: where the query has the pair, the high reference goes on, else the low one.
#[derive(Clone, Copy, Debug, PartialEq, Eq)]
pub struct Node {
    pub pair: u32,
    pub low: u32,
    pub high: u32,
}

// The words of a node: these three, a bucket's head, a chain's link, and two that hold a count, or in a sweep a mark. A head or a
// link is 0 where there is none, and no `Option`, since it is a word.
pub(crate) const SIZE: usize = 7;

pub(crate) const LOW: usize = 1;

pub(crate) const HIGH: usize = 2;

pub(crate) const HEAD: usize = 3;

pub(crate) const LINK: usize = 4;

pub(crate) const COUNT: usize = 5;

// Node k of the words.
pub(crate) fn node_at(words: &[u32], k: usize) -> Node
    requires { 7 * k + 7 ≤ length words.now }
    ensures { result ≡ node_at words.now k }
{
    Node {
        pair: words[SIZE * k],
        low: words[SIZE * k + LOW],
        high: words[SIZE * k + HIGH],
    }
}

// Writes node k.
pub(crate) fn put_node(words: &mut [u32], k: usize, node: Node)
    requires { 7 * k + 7 ≤ length words.old }
    ensures { words.new ≡ putting words.old k node }
{
    words[SIZE * k] = node.pair;
    words[SIZE * k + LOW] = node.low;
    words[SIZE * k + HIGH] = node.high;
}
