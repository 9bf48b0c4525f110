ghost use Rattle.std.specs.Prelude.{◌≡◌};
ghost use Rattle.policy.specs.Refusals as refusals;

// Why a file is refused, and at which byte.
#[derive(Clone, Copy, Debug, PartialEq, Eq)]
pub enum ReadFault {
    // more than 65,535 bytes; the place is always 0
    TooLong,
    // the first byte of the opening that is wrong or missing
    Opening { place: usize },
    // no byte where a command should begin, or operands cut short; the place is the file's length
    CutShort { place: usize },
    UnknownCommand { place: usize },
    // a command of a part that is over
    EarlierPart { place: usize },
    // an operand's value or number
    Operand { place: usize },
    // too few items on the stack, or items of the wrong kind
    Items { place: usize },
    // a seventeenth item
    StackFull { place: usize },
    // a wrong stack at the end, or the byte after it
    Ending { place: usize },
}

impl ReadFault {
    // By a match: the cases hold places, so that `as` gives no number.
    pub fn number(self) -> u8
        ensures { result ≡ refusals.number self }
    {
        match self {
            ReadFault::TooLong => 2,
            ReadFault::Opening { .. } => 3,
            ReadFault::CutShort { .. } => 4,
            ReadFault::UnknownCommand { .. } => 5,
            ReadFault::EarlierPart { .. } => 6,
            ReadFault::Operand { .. } => 7,
            ReadFault::Items { .. } => 8,
            ReadFault::StackFull { .. } => 9,
            ReadFault::Ending { .. } => 10,
        }
    }

    pub fn place(self) -> usize
        ensures { result ≡ refusals.place self }
    {
        match self {
            ReadFault::TooLong => 0,
            ReadFault::Opening { place }
            | ReadFault::CutShort { place }
            | ReadFault::UnknownCommand { place }
            | ReadFault::EarlierPart { place }
            | ReadFault::Operand { place }
            | ReadFault::Items { place }
            | ReadFault::StackFull { place }
            | ReadFault::Ending { place } => place,
        }
    }
}
