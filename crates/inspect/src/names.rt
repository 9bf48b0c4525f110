// What operators, decisions, attributes and pairs are called. By methods, and no `Display`: what that writes no contract says.
#![tactic(auto, using(crate::proofs::Joins::then_adds, crate::proofs::Naming::kept_change, crate::proofs::Naming::kept_operator, crate::proofs::Naming::kept_constant))]

ghost use Rattle.std.specs.Prelude.{◌≡◌};
ghost use Rattle.policy.specs.Codes.{change_code, operator_code};
ghost use Rattle.policy.specs.View as view;
ghost use Rattle.inspect.specs.Names as names;
ghost use Rattle.inspect.specs.Written.{Adds};

use crate::text::Text;
use policy::{Attribute, Change, Decision, Operator, Reader};
use std::alloc::AllocError;

fn change_name(change: Change) -> &'static str
    ensures { result.now ≡ names.change_name (change_code change) }
{
    match change {
        Change::Not => "not",
        Change::E1 => "E1",
        Change::OrDeny => "or-deny",
    }
}

#[tactic(auto, unfolding(crate::specs::Names::operator_name))]
fn operator_name(operator: Operator) -> &'static str
    ensures { result.now ≡ names.operator_name (operator_code operator) }
{
    match operator {
        Operator::And => "and",
        Operator::WeakAnd => "weak-and",
        Operator::DenyOverrides => "deny-overrides",
        Operator::Or => "or",
        Operator::WeakOr => "weak-or",
        Operator::AllowOverrides => "allow-overrides",
        Operator::Op20 => "op20",
        Operator::Op21 => "op21",
        Operator::Op22 => "op22",
        Operator::Op23 => "op23",
        Operator::Op24 => "op24",
        Operator::Op25 => "op25",
        Operator::Op26 => "op26",
        Operator::Op27 => "op27",
    }
}

fn constant_name(decision: Decision) -> &'static str
    ensures { result.now ≡ names.constant_name decision }
{
    match decision {
        Decision::Deny => "deny",
        Decision::Allow => "allow",
        Decision::NotApplicable => "not-applicable",
    }
}

impl Text {
    pub(crate) fn change(&mut self, change: Change) -> Result<(), AllocError>
        ensures { Adds result self.old self.new (names.change_name (change_code change)) }
    {
        self.add(change_name(change))
    }

    pub(crate) fn operator(&mut self, operator: Operator) -> Result<(), AllocError>
        ensures { Adds result self.old self.new (names.operator_name (operator_code operator)) }
    {
        self.add(operator_name(operator))
    }

    pub(crate) fn constant(&mut self, decision: Decision) -> Result<(), AllocError>
        ensures { Adds result self.old self.new (names.constant_name decision) }
    {
        self.add(constant_name(decision))
    }

    // The name of an attribute, without the 00 bytes that fill it up.
    pub(crate) fn attribute(&mut self, reader: &Reader, number: u8) -> Result<(), AllocError>
        ensures { Adds result self.old self.new (names.attribute_text (view.context reader.now) number) }
    {
        match reader.attribute(number) {
            Some(Attribute { name, .. }) => self.bytes(name),
            None => Ok(()),
        }
    }

    // The name of an attribute, and the number of a value within it. No pair is below the start of its attribute.
    pub(crate) fn pair(&mut self, reader: &Reader, number: u8) -> Result<(), AllocError>
        ensures { Adds result self.old self.new (names.pair_text (view.context reader.now) number) }
    {
        let Some(Attribute { name, start, .. }) = reader.attribute_with(number) else {
            return Ok(());
        };
        self.bytes(name)?;
        self.add("=")?;
        self.number(number.saturating_sub(start) as usize)
    }
}
