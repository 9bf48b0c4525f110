ghost use Rattle.std.specs.Prelude.{◌≡◌, ◌+◌, length};
ghost use Rattle.policy.specs.Commands.{size};

use crate::opcode::Opcode;
use crate::{Change, Command, Decision, Operator};

// A command as it stands in the file: where it begins, its operands, and where the next one begins.
#[derive(Clone, Copy)]
pub struct Encoded<'f> {
    pub(crate) place: usize,
    pub(crate) opcode: Opcode,
    pub(crate) operands: &'f [u8],
    pub(crate) next: usize,
    ghost whole: { length operands.now ≡ size opcode },
    ghost after: { next ≡ place + 1 + size opcode },
}

impl<'f> Encoded<'f> {
    ghost use Rattle.policy.specs.Commands as commands;
    ghost use Rattle.policy.specs.View.{Decoded};

    // The command; none where the code of its operator is no code.
    pub(crate) fn decoded(self) -> Option<Command<'f>>
        ensures { Decoded result (commands.decoded self.entry.opcode self.entry.operands.now) }
    {
        let operands = self.operands;
        let command = match self.opcode {
            Opcode::Attribute => Command::Attribute {
                name: operands[..8].try_into().ok()?,
                count: operands[8],
            },
            Opcode::Operator => Command::Operator {
                digits: operands.try_into().ok()?,
            },
            Opcode::Exclusion => Command::Exclusion {
                first: operands[0],
                second: operands[1],
            },
            Opcode::AtMost => Command::AtMost {
                attribute: operands[0],
                limit: operands[1],
            },
            Opcode::AtLeast => Command::AtLeast {
                attribute: operands[0],
                limit: operands[1],
            },
            Opcode::Pair => Command::Pair { pair: operands[0] },
            Opcode::Allow => Command::Constant {
                decision: Decision::Allow,
            },
            Opcode::Deny => Command::Constant {
                decision: Decision::Deny,
            },
            Opcode::Change => Command::Change {
                change: Change::try_from(operands[0]).ok()?,
            },
            Opcode::Combine => Command::Combine {
                operator: Operator::try_from(operands[0]).ok()?,
            },
            Opcode::Guard => Command::Guard,
            Opcode::End => Command::End,
        };
        Some(command)
    }
}
