ghost use Rattle.std.specs.Prelude.{◌≡◌, IfErr};
ghost use Rattle.std.specs.Result.{result_ok};
ghost use Rattle.policy.specs.Commands as commands;
ghost use Rattle.policy.specs.Parts.{part_number};

use crate::UnknownCode;
use crate::part::Part;

// The commands of a file, without their operands, by their bytes.
#[derive(Clone, Copy, Debug, PartialEq, Eq)]
pub enum Opcode {
    Attribute = 0x41,
    Operator = 0x4f,
    Exclusion = 0x58,
    AtMost = 0x4d,
    AtLeast = 0x4c,
    Pair = 0x74,
    Allow = 0x31,
    Deny = 0x30,
    Change = 0x6e,
    Combine = 0x62,
    Guard = 0x67,
    End = 0x2e,
}

impl TryFrom<u8> for Opcode {
    type Error = UnknownCode;

    ghost try_from_gives = { λ byte r. (result_ok r ≡ commands.opcode byte) × IfErr r (λ e. e.0 ≡ byte) };

    fn try_from(byte: u8) -> Result<Opcode, UnknownCode> {
        match byte {
            0x41 => Ok(Opcode::Attribute),
            0x4f => Ok(Opcode::Operator),
            0x58 => Ok(Opcode::Exclusion),
            0x4d => Ok(Opcode::AtMost),
            0x4c => Ok(Opcode::AtLeast),
            0x74 => Ok(Opcode::Pair),
            0x31 => Ok(Opcode::Allow),
            0x30 => Ok(Opcode::Deny),
            0x6e => Ok(Opcode::Change),
            0x62 => Ok(Opcode::Combine),
            0x67 => Ok(Opcode::Guard),
            0x2e => Ok(Opcode::End),
            _ => Err(UnknownCode(byte)),
        }
    }
}

impl Opcode {
    // The part of the file that the command belongs to.
    pub(crate) fn part(self) -> Part
        ensures { part_number result ≡ commands.part self }
    {
        match self {
            Opcode::Attribute => Part::Attributes,
            Opcode::Operator => Part::Operators,
            Opcode::Exclusion | Opcode::AtMost | Opcode::AtLeast => Part::Constraints,
            _ => Part::Policy,
        }
    }

    // How many bytes its operands have.
    pub(crate) fn size(self) -> usize
        ensures { result ≡ commands.size self }
    {
        match self {
            Opcode::Attribute | Opcode::Operator => 9,
            Opcode::Exclusion | Opcode::AtMost | Opcode::AtLeast => 2,
            Opcode::Pair | Opcode::Change | Opcode::Combine => 1,
            _ => 0,
        }
    }
}
