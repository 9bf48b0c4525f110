ghost use Rattle.source.specs.Card.{card as card_meaning};

use crate::set::contains;
use crate::{PAIRS, Source};

// A set of pairs with one label; the pair i weighs 2^i.
#[derive(Clone, Copy, Debug, PartialEq, Eq)]
pub struct Card {
    pub pairs: u64,
    pub label: u8,
}

impl Source for Card {
    ghost meaning = { λ s. card_meaning s.pairs s.label };

    fn tells(&self, pair: u8) -> bool {
        pair < PAIRS && contains(self.pairs, pair)
    }

    fn label(&self, pair: u8) -> Option<u8> {
        self.tells(pair).then_some(self.label)
    }
}
