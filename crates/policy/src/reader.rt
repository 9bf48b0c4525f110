ghost use Rattle.std.specs.Prelude.{◌≡◌, ◌<◌, ◌≤◌, true, length};
ghost use Rattle.std.specs.List.{list_all};
ghost use Rattle.arrayvec.specs.ArrayVec.{array_vec_len};
ghost use Rattle.policy.specs.Commands.{are_digits};
ghost use Rattle.policy.specs.Parts.{reached};
ghost use Rattle.policy.specs.Placed.{NamesWithin, OperatorsWithin};
ghost use Rattle.policy.specs.Rows.{tables};

use crate::kinds::Kinds;
use crate::part::Part;
use crate::{Attribute, Row};
use arrayvec::ArrayVec;

mod declared;
mod standing;
mod steps;

// How many pairs a file may have.
const MOST_PAIRS: usize = 48;

// How many own operators a file may have.
const MOST_OPERATORS: usize = 8;

// Reads a file command by command, and keeps what the next one is checked against.
#[derive(Drop)]
pub struct Reader<'f> {
    file: &'f [u8],
    // where the next command begins
    place: usize,
    // the part of the file that was reached, once the opening has been looked at
    part: Option<Part>,
    attributes: ArrayVec<Attribute<'f>, MOST_PAIRS>,
    pairs: u8,
    operators: ArrayVec<Row, MOST_OPERATORS>,
    kinds: Kinds,
    ghost short: { (0 < reached part → length file.now ≤ 65535) },
    ghost within: { (0 < reached part → place ≤ length file.now) },
    ghost first: { (reached part ≡ 0 → place ≡ 5) },
    ghost some: { array_vec_len attributes ≤ pairs },
    ghost few: { pairs ≤ 48 },
    ghost eight: { array_vec_len operators ≤ 8 },
    // names, and the digits of own operators, are parts of the file
    ghost named: { NamesWithin file.now attributes.items },
    ghost held: { OperatorsWithin file.now operators.items },
    ghost digits: { list_all are_digits (tables operators.items) ≡ true },
}
