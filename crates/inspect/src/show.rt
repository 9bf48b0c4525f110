// The formula of a policy with infix operators.
#![tactic(auto, using(crate::proofs::Joins::then_adds))]

ghost use Rattle.std.specs.Prelude.{◌++◌, codes};
ghost use Rattle.policy.specs.Codes.{operator_code};
ghost use Rattle.policy.specs.View as view;
ghost use Rattle.inspect.specs.Formulas.{target_text, policy_text};
ghost use Rattle.inspect.specs.Names.{operator_name};
ghost use Rattle.inspect.specs.Written.{Adds};

use crate::formula::{Policy, Target};
use crate::text::Text;
use policy::{Operator, Reader};
use std::alloc::AllocError;

impl Text {
    // An operator between its operands.
    fn infix(&mut self, operator: Operator) -> Result<(), AllocError>
        ensures { Adds result self.old self.new (codes " " ++ (operator_name (operator_code operator) ++ codes " ")) }
    {
        self.add(" ")?;
        self.operator(operator)?;
        self.add(" ")
    }

    fn target(&mut self, reader: &Reader, shown: &Target) -> Result<(), AllocError>
        ensures { Adds result self.old self.new (target_text (view.context reader.now) shown.now) }
    {
        match shown {
            Target::Pair(number) => self.pair(reader, *number),
            Target::Change(change, inner) => {
                self.change(*change)?;
                self.add(" ")?;
                self.target(reader, inner)
            }
            Target::Combine(operator, first, second) => {
                self.add("(")?;
                self.target(reader, first)?;
                self.infix(*operator)?;
                self.target(reader, second)?;
                self.add(")")
            }
        }
    }

    pub(crate) fn policy(&mut self, reader: &Reader, shown: &Policy) -> Result<(), AllocError>
        ensures { Adds result self.old self.new (policy_text (view.context reader.now) shown.now) }
    {
        match shown {
            Policy::Always(decision) => self.constant(*decision),
            Policy::Change(change, inner) => {
                self.change(*change)?;
                self.add(" ")?;
                self.policy(reader, inner)
            }
            Policy::Combine(operator, first, second) => {
                self.add("(")?;
                self.policy(reader, first)?;
                self.infix(*operator)?;
                self.policy(reader, second)?;
                self.add(")")
            }
            Policy::Guard(guard, inner) => {
                self.add("(")?;
                self.target(reader, guard)?;
                self.add(" => ")?;
                self.policy(reader, inner)?;
                self.add(")")
            }
        }
    }
}
