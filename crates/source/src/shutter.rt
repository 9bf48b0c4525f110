ghost use Rattle.source.specs.Shutter.{shutter as shutter_meaning};

use crate::Source;
use crate::set::contains;

// Hides a fixed set of pairs of the source below.
#[derive(Drop)]
pub struct Shutter<S> {
    pub hidden: u64,
    pub below: S,
}

impl<S: Source> Source for Shutter<S> {
    ghost meaning = { λ s. shutter_meaning s.hidden (S.Source.meaning s.below) };

    fn tells(&self, pair: u8) -> bool {
        !contains(self.hidden, pair) && self.below.tells(pair)
    }

    fn label(&self, pair: u8) -> Option<u8> {
        if contains(self.hidden, pair) {
            return None;
        }
        self.below.label(pair)
    }
}
