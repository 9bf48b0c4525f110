ghost use Rattle.std.specs.Prelude.{◌≡◌, ℕ};
ghost use Rattle.diagram.specs.Kinds.{Joins, either, union};
ghost use Rattle.diagram.specs.Rules.{value_of};
ghost use Rattle.diagram.specs.Joining.{either_joins, union_joins};

use crate::rule::Rule;

// A kind of leaf: the codes 0 to `codes` − 1, and a join that makes one code of two. Closing gathers by the join what a
// diagram says at many queries, in no order and any number of times, so the join is associative, commutative and idempotent.
pub trait Kind {
    ghost codes: { ℕ };

    ghost join: { ℕ → ℕ → ℕ };

    // The join as a rule by which diagrams are combined.
    fn rule() -> Rule
        ensures { value_of result ≡ join };

    ghost laws: { Joins codes join };
}

// Truth: 0 is false and 1 is true, joined by or.
#[derive(Drop)]
pub struct Truth;

impl Kind for Truth {
    ghost codes = { 2 };

    ghost join = { either };

    ghost laws = { either_joins };

    fn rule() -> Rule {
        Rule::Two([0, 1, 0, 1, 1, 0, 0, 0, 0])
    }
}

// Sets of decisions: deny adds 1, allow 2 and not applicable 4 to the code; joined by union.
#[derive(Drop)]
pub struct DecisionSets;

impl Kind for DecisionSets {
    ghost codes = { 8 };

    ghost join = { union };

    ghost laws = { union_joins };

    fn rule() -> Rule {
        Rule::Union
    }
}
