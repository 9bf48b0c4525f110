// Where a reader stands.
ghost use Rattle.std.specs.Prelude.{◌≡◌};
ghost use Rattle.policy.specs.View as view;

use super::Reader;

impl Reader<'_> {
    // Where the next command begins.
    pub fn place(&self) -> usize
        ensures { result ≡ view.place self.now }
    {
        self.place
    }

    // How many pairs the attributes that were declared have together.
    pub fn pairs(&self) -> u8
        ensures { result ≡ (view.context self.now).pairs }
    {
        self.pairs
    }
}
