ghost use Rattle.source.specs.Joint.{joint as joint_meaning};

use crate::Source;

// Two sources: tells what either tells, with the first's label where the first tells it.
#[derive(Drop)]
pub struct Joint<A, B> {
    pub first: A,
    pub second: B,
}

impl<A: Source, B: Source> Source for Joint<A, B> {
    ghost meaning = { λ s. joint_meaning (A.Source.meaning s.first) (B.Source.meaning s.second) };

    fn tells(&self, pair: u8) -> bool {
        self.first.tells(pair) || self.second.tells(pair)
    }

    fn label(&self, pair: u8) -> Option<u8> {
        self.first.label(pair).or_else(|| self.second.label(pair))
    }
}
