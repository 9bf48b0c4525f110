ghost use Rattle.policy.specs.View.{StandardRow};

// A two-operand operator: the entry 3 × first + second is its value. The default fills the places of a reader's vector that are
// free.
#[derive(Clone, Copy, Debug, Default, PartialEq, Eq)]
pub struct Row {
    pub entries: [u8; 9],
}

// The operators with the codes 10 to 15: strong and weak conjunction, deny overrides,
// strong and weak disjunction, allow overrides.
const STANDARD: [Row; 6] = [
    Row {
        entries: [0, 0, 0, 0, 1, 2, 0, 2, 2],
    },
    Row {
        entries: [0, 0, 2, 0, 1, 2, 2, 2, 2],
    },
    Row {
        entries: [0, 0, 0, 0, 1, 1, 0, 1, 2],
    },
    Row {
        entries: [0, 1, 2, 1, 1, 1, 2, 1, 2],
    },
    Row {
        entries: [0, 1, 2, 1, 1, 2, 2, 2, 2],
    },
    Row {
        entries: [0, 1, 0, 1, 1, 1, 0, 1, 2],
    },
];

impl Row {
    // The row of a standard code. By number: any may be asked for, and for one that is no standard code there is none.
    pub fn standard(code: u8) -> Option<Row>
        ensures { StandardRow result code }
    {
        let i = code.checked_sub(0x10)?;
        STANDARD.get(i as usize).copied()
    }
}
