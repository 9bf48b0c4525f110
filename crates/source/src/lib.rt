// Attribute sources: whatever tells which attribute-value pairs hold of a user. A source is seen by its meaning alone.
#![tactic(auto)]

ghost use Rattle.std.specs.Prelude.{◌≡◌};
ghost use Rattle.source.specs.Meanings.{Meaning, tells as told};
ghost use Rattle.source.specs.Sets.{QueryOf};

mod card;
mod joint;
mod set;
mod shutter;
mod slip;
mod strainer;

pub use card::Card;
pub use joint::Joint;
pub use shutter::Shutter;
pub use slip::Slip;
pub use strainer::Strainer;

// The pairs that can be told are 0 to 47.
pub const PAIRS: u8 = 48;

// Each answer follows the meaning, every time, and alters nothing. A pair above 47 is not told.
pub trait Source {
    ghost meaning: { Self → Meaning };

    // Whether the pair is told.
    fn tells(&self, pair: u8) -> bool
        ensures { result ≡ told (meaning self.now) pair };

    // The pair's label, where it is told.
    fn label(&self, pair: u8) -> Option<u8>
        ensures { result ≡ (meaning self.now).label pair };
}

// The told pairs below n as a set: the source is questioned for each pair, in rising order.
pub fn query_of<S: Source>(source: &S, n: u8) -> u64
    ensures { QueryOf n (S.Source.meaning source.now) result }
{
    let mut query = 0;
    for pair in 0..n.min(PAIRS) {
        if source.tells(pair) {
            query |= 1 << pair;
        }
    }
    query
}
