ghost use Rattle.std.specs.Prelude.{◌≡◌};
ghost use Rattle.diagram.specs.declared.refusal.Refusal.TheVariants.{Full};

use crate::table::TableFull;

// Why a call on diagrams was refused.
#[derive(Clone, Copy, Debug, PartialEq, Eq)]
pub enum Refusal {
    // A reference does not stand in the table.
    Unknown,
    // A pair is above 47, or does not come before the pairs that the parts test; or more than 48 pairs are to be counted over.
    Unordered,
    // The table has no room for a node that is needed.
    Full,
}

impl From<TableFull> for Refusal {
    ghost from_gives = { λ e r. r ≡ Full };

    fn from(_full: TableFull) -> Refusal {
        Refusal::Full
    }
}
