ghost use Rattle.std.specs.Prelude.{◌≡◌};
ghost use Rattle.bench.specs.Refusals as refusals;
ghost use Rattle.bench.specs.declared.fault.Fault.TheVariants.{Own};
ghost use Rattle.bench.specs.declared.fault.LoadFault.TheVariants.{Reading, Table};

use policy::ReadFault;

// The table has no room for a node that is needed: at a load's command, or at 0 in a close.
#[derive(Clone, Copy, Debug, PartialEq, Eq)]
pub struct TableFault {
    pub place: usize,
}

// Why a load or a close failed below the bench.
#[derive(Clone, Copy, Debug, PartialEq, Eq)]
pub enum LoadFault {
    Reading(ReadFault),
    Table(TableFault),
}

impl From<ReadFault> for LoadFault {
    ghost from_gives = { λ e r. r ≡ Reading e };

    fn from(fault: ReadFault) -> LoadFault {
        LoadFault::Reading(fault)
    }
}

impl From<TableFault> for LoadFault {
    ghost from_gives = { λ e r. r ≡ Table e };

    fn from(fault: TableFault) -> LoadFault {
        LoadFault::Table(fault)
    }
}

// Why the bench itself refuses a call, by its number.
#[derive(Clone, Copy, Debug, PartialEq, Eq)]
pub enum Reason {
    // the shelf number is above 3
    NoShelf = 1,
    // extend: the query is not valid there
    NotValid = 11,
    // load: the shelf is taken
    Taken = 21,
    // any other call on an empty shelf
    Empty = 22,
    // extend, reach and root on a draft
    NotClosed = 23,
    // close on a closed shelf
    AlreadyClosed = 24,
}

// Why a call was refused: a lower fault whole, or a reason of the bench's own; and the shelf that the call named.
#[derive(Clone, Copy, Debug, PartialEq, Eq)]
pub enum Fault {
    Below { shelf: u8, fault: LoadFault },
    Own { shelf: u8, reason: Reason },
}

// By matches, here and below: the cases hold lower faults, so that `as` gives no number.
impl LoadFault {
    // 1 is reading, 2 is the table.
    pub fn layer(self) -> u8
        ensures { result ≡ refusals.load_layer self }
    {
        match self {
            LoadFault::Reading(_) => 1,
            LoadFault::Table(_) => 2,
        }
    }

    pub fn number(self) -> u8
        ensures { result ≡ refusals.load_number self }
    {
        match self {
            LoadFault::Reading(fault) => fault.number(),
            LoadFault::Table(_) => 25,
        }
    }

    pub fn place(self) -> usize
        ensures { result ≡ refusals.load_place self }
    {
        match self {
            LoadFault::Reading(fault) => fault.place(),
            LoadFault::Table(fault) => fault.place,
        }
    }
}

impl Reason {
    // The fault of a call on this shelf.
    pub(crate) fn on(self, shelf: u8) -> Fault
        ensures { result ≡ Own shelf self }
    {
        Fault::Own {
            shelf,
            reason: self,
        }
    }

    pub fn number(self) -> u8
        ensures { result ≡ refusals.reason_number self }
    {
        self as u8
    }
}

impl Fault {
    // The layer of the lowest fault; the bench is layer 3.
    pub fn layer(self) -> u8
        ensures { result ≡ refusals.layer self }
    {
        match self {
            Fault::Below { fault, .. } => fault.layer(),
            Fault::Own { .. } => 3,
        }
    }

    pub fn number(self) -> u8
        ensures { result ≡ refusals.number self }
    {
        match self {
            Fault::Below { fault, .. } => fault.number(),
            Fault::Own { reason, .. } => reason.number(),
        }
    }

    pub fn place(self) -> usize
        ensures { result ≡ refusals.place self }
    {
        match self {
            Fault::Below { fault, .. } => fault.place(),
            Fault::Own { shelf, .. } => shelf as usize,
        }
    }

    // The shelf that the call named.
    pub fn shelf(self) -> u8
        ensures { result ≡ refusals.shelf self }
    {
        match self {
            Fault::Below { shelf, .. } | Fault::Own { shelf, .. } => shelf,
        }
    }
}
