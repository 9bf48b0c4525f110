ghost use Rattle.std.specs.Prelude.{◌≡◌, ◌≤◌, map, length};
ghost use Rattle.diagram.specs.Held.{room_of, store_of};
ghost use Rattle.diagram.specs.Sweeping.{Moves, swept, wanted};

use super::Diagrams;

impl Diagrams<'_> {
    // Keeps just the nodes that are reached from the roots, in their order, and gives each root its new reference. A root
    // that does not stand in the table is left as it is, and keeps nothing.
    pub fn sweep(&mut self, roots: &mut [u32])
        ensures is { store_of self.new ≡ (swept (store_of self.old) (wanted roots.old)).store }
        ensures roots { roots.new ≡ map (swept (store_of self.old) (wanted roots.old)).renumber roots.old }
        ensures moves { Moves (store_of self.old) (store_of self.new) roots.old roots.new }
        ensures fewer { length (store_of self.new) ≤ length (store_of self.old) }
        ensures room { room_of self.new ≡ room_of self.old }
    {
        self.memo.fill(0);
        self.fill = crate::sweep::sweep(self.words, self.fill, roots);
    }
}
