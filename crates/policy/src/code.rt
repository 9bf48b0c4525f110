ghost use Rattle.std.specs.Prelude.{◌≡◌};
ghost use Rattle.policy.specs.Codes.{change_code, operator_code, Decodes};
ghost use Rattle.policy.specs.Values.{is_change, is_operator};

// A byte that is no code of its kind.
#[derive(Clone, Copy, Debug, PartialEq, Eq)]
pub struct UnknownCode(pub u8);

// A one-operand operator by its code.
#[derive(Clone, Copy, Debug, PartialEq, Eq)]
pub enum Change {
    // exchanges 0 and 1
    Not = 0x00,
    // exchanges 1 and 2
    E1 = 0x01,
    // turns 2 into 0
    OrDeny = 0x02,
}

impl Change {
    pub fn code(self) -> u8
        ensures { result ≡ change_code self }
    {
        self as u8
    }
}

impl TryFrom<u8> for Change {
    type Error = UnknownCode;

    ghost try_from_gives = { Decodes change_code is_change };

    fn try_from(code: u8) -> Result<Change, UnknownCode> {
        match code {
            0x00 => Ok(Change::Not),
            0x01 => Ok(Change::E1),
            0x02 => Ok(Change::OrDeny),
            _ => Err(UnknownCode(code)),
        }
    }
}

// A two-operand operator by its code: the standard ones, and a file's own in the order of their declarations.
#[derive(Clone, Copy, Debug, PartialEq, Eq)]
pub enum Operator {
    And = 0x10,
    WeakAnd = 0x11,
    DenyOverrides = 0x12,
    Or = 0x13,
    WeakOr = 0x14,
    AllowOverrides = 0x15,
    Op20 = 0x20,
    Op21 = 0x21,
    Op22 = 0x22,
    Op23 = 0x23,
    Op24 = 0x24,
    Op25 = 0x25,
    Op26 = 0x26,
    Op27 = 0x27,
}

impl Operator {
    pub fn code(self) -> u8
        ensures { result ≡ operator_code self }
    {
        self as u8
    }
}

impl TryFrom<u8> for Operator {
    type Error = UnknownCode;

    ghost try_from_gives = { Decodes operator_code is_operator };

    fn try_from(code: u8) -> Result<Operator, UnknownCode> {
        match code {
            0x10 => Ok(Operator::And),
            0x11 => Ok(Operator::WeakAnd),
            0x12 => Ok(Operator::DenyOverrides),
            0x13 => Ok(Operator::Or),
            0x14 => Ok(Operator::WeakOr),
            0x15 => Ok(Operator::AllowOverrides),
            0x20 => Ok(Operator::Op20),
            0x21 => Ok(Operator::Op21),
            0x22 => Ok(Operator::Op22),
            0x23 => Ok(Operator::Op23),
            0x24 => Ok(Operator::Op24),
            0x25 => Ok(Operator::Op25),
            0x26 => Ok(Operator::Op26),
            0x27 => Ok(Operator::Op27),
            _ => Err(UnknownCode(code)),
        }
    }
}
