ghost use Rattle.std.specs.Prelude.{◌≡◌, ◌+◌, ◌*◌, ◌<◌, MatchOption};
ghost use Rattle.diagram.specs.Memo.{Few, entries as entries_of, noted, operation_at, recalled, slot};

use crate::spread::spread;

// A memo has at most this many entries.
pub(crate) const ENTRIES: usize = 4096;

// The words of an entry: a key, two references, the result.
pub(crate) const SIZE: usize = 4;

const FIRST: usize = 1;

const SECOND: usize = 2;

const RESULT: usize = 3;

// What the memo keeps a result of: an operation's key, and the references that it was done on. The key is a number, since the
// memo keeps it in a word.
#[derive(Clone, Copy, Debug, PartialEq, Eq)]
pub(crate) struct Operation {
    pub(crate) key: u32,
    pub(crate) a: u32,
    pub(crate) b: u32,
}

// The operation of entry k.
fn operation_at(memo: &[u32], k: usize) -> Operation
    requires { k < entries_of memo.now }
    ensures { result ≡ operation_at memo.now k }
{
    Operation {
        key: memo[SIZE * k],
        a: memo[SIZE * k + FIRST],
        b: memo[SIZE * k + SECOND],
    }
}

// The one entry where the result of an operation may be, if there is room for any.
fn slot_of(memo: &[u32], operation: Operation) -> Option<usize>
    requires { Few memo.now }
    ensures { MatchOption result (entries_of memo.now ≡ 0) (λ k. (k ≡ slot memo.now operation) × (k < entries_of memo.now)) }
{
    let entries = memo.len() / SIZE;
    if entries == 0 {
        return None;
    }
    Some(spread(entries, operation.key, operation.a, operation.b))
}

// The kept result of an operation.
pub(crate) fn recall(memo: &[u32], operation: Operation) -> Option<u32>
    requires { Few memo.now }
    ensures { result ≡ recalled memo.now operation }
{
    let k = slot_of(memo, operation)?;
    if operation_at(memo, k) == operation {
        return Some(memo[SIZE * k + RESULT]);
    }
    None
}

// Keeps a result, in place of whatever stood in its entry.
pub(crate) fn note(memo: &mut [u32], operation: Operation, res: u32)
    requires { Few memo.old }
    ensures { memo.new ≡ noted memo.old operation res }
{
    let Some(k) = slot_of(memo, operation) else {
        return;
    };
    memo[SIZE * k] = operation.key;
    memo[SIZE * k + FIRST] = operation.a;
    memo[SIZE * k + SECOND] = operation.b;
    memo[SIZE * k + RESULT] = res;
}
