ghost use Rattle.std.specs.Prelude.{◌≡◌, replicate};
ghost use Rattle.policy.specs.Commands as commands;
ghost use Rattle.policy.specs.View.{command};

use crate::{Change, Decision, Operator};

// A command with its operands; names and digits are parts of the file.
#[derive(Clone, Copy, Debug, PartialEq, Eq)]
pub enum Command<'f> {
    // a name of eight bytes, and how many values the attribute has
    Attribute { name: &'f [u8; 8], count: u8 },
    // an own operator by its nine digits
    Operator { digits: &'f [u8; 9] },
    // two pairs that never hold together
    Exclusion { first: u8, second: u8 },
    // two limits, and not one with a kind: each is a command of its own in the format
    AtMost { attribute: u8, limit: u8 },
    AtLeast { attribute: u8, limit: u8 },
    // pushes the target of a pair
    Pair { pair: u8 },
    // pushes a policy that always decides so
    Constant { decision: Decision },
    // a one-operand operator for the top item
    Change { change: Change },
    // a two-operand operator for the two top items, the lower one first
    Combine { operator: Operator },
    Guard,
    End,
}

impl Command<'_> {
    // Whether it is the end of the file.
    pub fn is_end(self) -> bool
        ensures { result ≡ commands.is_end (command self.entry) }
    {
        matches!(self, Command::End)
    }
}

// An attribute that a file declares: its values are the pairs from `start` on.
#[derive(Clone, Copy, Debug, PartialEq, Eq)]
pub struct Attribute<'f> {
    pub name: &'f [u8; 8],
    pub start: u8,
    pub count: u8,
}

// Fills the places of a reader's vector that are free: no pairs, under a name of 00.
impl Default for Attribute<'_> {
    ghost is_default = { λ a. (a.name.now ≡ replicate 8 0) × (a.start ≡ 0) × (a.count ≡ 0) };

    fn default() -> Self {
        Attribute {
            name: b"\0\0\0\0\0\0\0\0",
            start: 0,
            count: 0,
        }
    }
}
