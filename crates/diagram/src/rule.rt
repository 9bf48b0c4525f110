ghost use Rattle.std.specs.Prelude.{◌≡◌, ◌<◌, ◌≤◌, length};
ghost use Rattle.diagram.specs.Rules.{ToldApart, entry as entry_of, key_of, number as number_of, value_of};

// How two leaf codes make a third. Of an entry the three lowest bits count, and a missing entry is 0.
#[derive(Clone, Copy, Debug, PartialEq, Eq)]
pub enum Rule {
    // The first code's entry, whatever the second code is.
    One([u8; 3]),
    // The entry 3 × first + second.
    Two([u8; 9]),
    // The bits of either.
    Union,
    // The second code where the first is 1, else 0.
    Where,
}

impl Rule {
    pub fn value(self, a: u32, b: u32) -> u32
        ensures { result ≡ value_of self a b }
    {
        match self {
            Rule::One(entries) => entry(&entries, a as usize),
            Rule::Two(entries) => entry(&entries, 3 * a as usize + b as usize),
            Rule::Union => a | b,
            Rule::Where => { if a == 1 { b } else { 0 } }
        }
    }

    // The whole rule as one number, which is never 0.
    pub fn key(self) -> u32
        ensures is { result ≡ key_of self }
        ensures apart { ToldApart self }
        ensures below { result < 536870912 }
    {
        match self {
            Rule::One(entries) => 4 * number(&entries) + 1,
            Rule::Two(entries) => 4 * number(&entries) + 2,
            Rule::Union => 3,
            Rule::Where => 7,
        }
    }
}

fn entry(entries: &[u8], i: usize) -> u32
    ensures { result ≡ entry_of entries.now i }
{
    entries.get(i).map_or(0, |e| u32::from(*e % 8))
}

// The entries as digits to the base 8, the first the lowest.
fn number(entries: &[u8]) -> u32
    requires { length entries.now ≤ 9 }
    ensures is { result ≡ number_of entries.now }
    ensures below { result < 134217728 }
{
    let mut n = 0;
    for e in entries.iter().rev() {
        n = 8 * n + u32::from(*e % 8);
    }
    n
}
