ghost use Rattle.std.specs.Prelude.{◌≡◌};
ghost use Rattle.source.specs.Slip.{slip as slip_meaning, HoldsEveryMeaning};

use crate::{PAIRS, Source};

// Received bytes, a pair and then its label.
#[derive(Clone, Copy, Debug, PartialEq, Eq)]
pub struct Slip<'b> {
    bytes: &'b [u8],
}

impl<'b> Slip<'b> {
    // A slip of these bytes. For every meaning there are bytes whose slip has it.
    pub fn of(bytes: &'b [u8]) -> Slip<'b>
        ensures bytes { result.bytes.now ≡ bytes.now }
        ensures every_meaning { HoldsEveryMeaning }
    {
        Slip { bytes }
    }
}

impl Source for Slip<'_> {
    ghost meaning = { λ s. slip_meaning s.bytes.now };

    fn tells(&self, pair: u8) -> bool {
        self.label(pair).is_some()
    }

    fn label(&self, pair: u8) -> Option<u8> {
        if pair >= PAIRS {
            return None;
        }
        let mut rest = self.bytes;
        while let [told, label, later @ ..] = rest {
            if *told == pair {
                return Some(*label);
            }
            rest = later;
        }
        None
    }
}
