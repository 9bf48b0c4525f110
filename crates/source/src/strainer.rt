ghost use Rattle.std.specs.Prelude.{◌≡◌, take};
ghost use Rattle.source.specs.Strainer.{among, strainer as strainer_meaning};

use crate::Source;

// Passes the pairs whose label is among the first eight of a list, which may be longer or shorter.
#[derive(Drop)]
pub struct Strainer<'l, S> {
    pub labels: &'l [u8],
    pub below: S,
}

// How many labels of a list count.
const LISTED: usize = 8;

// Whether a label is among the first eight of these.
fn passes(labels: &[u8], label: u8) -> bool
    ensures { result ≡ among (take 8 labels.now) label }
{
    labels.iter().take(LISTED).any(|listed| *listed == label)
}

impl<S: Source> Source for Strainer<'_, S> {
    ghost meaning = { λ s. strainer_meaning s.labels.now (S.Source.meaning s.below) };

    fn tells(&self, pair: u8) -> bool {
        self.label(pair).is_some()
    }

    fn label(&self, pair: u8) -> Option<u8> {
        self.below
            .label(pair)
            .filter(|label| passes(self.labels, *label))
    }
}
