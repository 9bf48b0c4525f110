ghost use Rattle.std.specs.Prelude.{◌≡◌, length};
ghost use Rattle.diagram.specs.Held.{store_of};

use super::Diagrams;

impl Diagrams<'_> {
    // How many nodes are in use.
    pub fn len(&self) -> usize
        ensures { result ≡ length (store_of self.now) }
    {
        self.fill
    }
}
