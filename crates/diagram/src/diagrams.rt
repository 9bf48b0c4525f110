ghost use Rattle.std.specs.Prelude.{◌≤◌};
ghost use Rattle.diagram.specs.Memo.{Few, Remembers};
ghost use Rattle.diagram.specs.Store.{Sound};
ghost use Rattle.diagram.specs.Words.{Heads, Links, capacity, stored};

// Diagrams in lent memory: a table of nodes, and a memo that only saves work. The fields are open to crates above; whoever puts
// a value together owes its invariant. Words and a fill mark, and no vector: the memory is lent, and handed over as words.
//
// That the room stays, and that nodes are at most added, stands on each method: it is said of two values, and no type says that.
#[derive(Drop)]
pub struct Diagrams<'m> {
    pub words: &'m mut [u32],
    pub memo: &'m mut [u32],
    pub fill: usize,
    ghost few: { capacity words.now ≤ 65536 },
    ghost within: { fill ≤ capacity words.now },
    ghost heads: { Heads words.now fill },
    ghost links: { Links words.now fill },
    ghost sound: { ∥ Sound (stored words.now fill) ∥₁ },
    ghost short: { Few memo.now },
    ghost knows: { ∥ Remembers (stored words.now fill) memo.now ∥₁ },
}

mod closing;
mod combining;
mod counting;
mod fixing;
mod methods;
mod nodes;
mod standing;
mod sweeping;
