ghost use Rattle.std.specs.Prelude.{◌≤◌};
ghost use Rattle.diagram.specs.Store.{Sound};
ghost use Rattle.diagram.specs.Words.{capacity, stored};

mod value;

// Diagrams to look at: the words of a table, and how many of its nodes are in use. Words and a count, as in `Diagrams`.
#[derive(Clone, Copy)]
pub struct View<'t> {
    pub words: &'t [u32],
    pub fill: usize,
    ghost within: { fill ≤ capacity words.now },
    ghost sound: { ∥ Sound (stored words.now fill) ∥₁ },
}
