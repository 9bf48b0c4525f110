// What a file has declared so far.
ghost use Rattle.std.specs.Prelude.{◌≡◌, ◌≤◌, true, not, ◌||◌, IfSome};
ghost use Rattle.std.specs.Option.{option_map};
ghost use Rattle.std.specs.List.{slice_get};
ghost use Rattle.policy.specs.Commands.{attribute, operator, exclusion, fresh, limits, allowed, restricts};
ghost use Rattle.policy.specs.Codes.{operator_code};
ghost use Rattle.policy.specs.Values.{is_standard, is_own};
ghost use Rattle.policy.specs.Placed.{part_of};
ghost use Rattle.policy.specs.Reading.{attribute_with};
ghost use Rattle.policy.specs.View as view;
ghost use Rattle.policy.specs.View.{context, RowOf};

use super::{MOST_PAIRS, Reader};
use crate::checks::{are_digits, is_name};
use crate::{Attribute, Operator, Row};

impl<'f> Reader<'f> {
    // Whether an attribute has this name.
    pub(crate) fn declares(&self, name: &[u8; 8]) -> bool
        ensures { result ≡ not (fresh name.now (context self.now).attributes) }
    {
        self.attributes
            .iter()
            .any(|attribute| attribute.name == name)
    }

    // Whether an attribute of this name and count may be declared.
    pub(crate) fn may_declare(&self, name: &[u8; 8], count: u8) -> bool
        ensures { result ≡ allowed (context self.now) (attribute name.now count) }
    {
        is_name(name)
            && !self.declares(name)
            && count >= 1
            && count as usize <= MOST_PAIRS - self.pairs as usize
    }

    // Whether an own operator may be declared.
    pub(crate) fn may_add(&self, digits: &[u8; 9]) -> bool
        ensures { result ≡ allowed (context self.now) (operator digits.now) }
    {
        are_digits(digits) && !self.operators.is_full()
    }

    // Whether two pairs may be said never to hold together.
    pub(crate) fn may_exclude(&self, first: u8, second: u8) -> bool
        ensures { result ≡ restricts (context self.now) (exclusion first second) }
    {
        first < self.pairs && second < self.pairs && first != second
    }

    // Whether the attribute is there and has this many pairs or more.
    pub(crate) fn limits(&self, attribute: u8, limit: u8) -> bool
        ensures { result ≡ limits (context self.now) attribute limit }
    {
        self.attribute(attribute)
            .is_some_and(|attribute| limit <= attribute.count)
    }

    // Whether an operator is standard, or an own one that was declared.
    pub(crate) fn has_operator(&self, operator: Operator) -> bool
        ensures { result ≡ is_standard (operator_code operator) || is_own (context self.now).operators (operator_code operator) }
    {
        self.row(operator.code()).is_some()
    }

    // The attribute with this number; its name is a part of the file. Attributes are numbered from 0 in the order of their
    // declarations.
    pub fn attribute(&self, number: u8) -> Option<Attribute<'f>>
        ensures is { option_map view.attribute result ≡ slice_get (context self.now).attributes number }
        ensures part { IfSome result (λ a. part_of (view.bytes self.now) 8 a.name.now ≡ true) }
    {
        self.attributes.get(number as usize).copied()
    }

    // The attribute that a pair is a value of; its name is a part of the file.
    pub fn attribute_with(&self, pair: u8) -> Option<Attribute<'f>>
        ensures is { option_map view.attribute result ≡ attribute_with (context self.now).attributes pair }
        ensures part { IfSome result (λ a. part_of (view.bytes self.now) 8 a.name.now ≡ true) }
    {
        let pair = pair as usize;
        self.attributes
            .iter()
            .find(|attribute| pair < attribute.start as usize + attribute.count as usize)
            .copied()
    }

    // The own operator that was declared last.
    pub fn newest(&self) -> Option<Operator>
        ensures { option_map operator_code result ≡ view.newest (context self.now).operators }
    {
        let before = self.operators.len().checked_sub(1)?;
        Operator::try_from(0x20 + before as u8).ok()
    }

    // The operator of a two-operand code; the digits of an own one are a part of the file. By number: any may be asked for, and
    // for one that is no code so far there is none.
    #[tactic(auto, using(crate::proofs::Declared::by_standard))]
    pub fn row(&self, code: u8) -> Option<Row>
        ensures is { RowOf result (context self.now).operators code }
        ensures part { 0x20 ≤ code → IfSome result (λ row. part_of (view.bytes self.now) 9 row.entries ≡ true) }
    {
        match code.checked_sub(0x20) {
            Some(own) => self.operators.get(own as usize).copied(),
            None => Row::standard(code),
        }
    }
}
