ghost use Rattle.std.specs.Prelude.{◌≡◌};
ghost use Rattle.bench.specs.Asking.{DraftStands};
ghost use Rattle.bench.specs.Changing.{closes, draft_at, drops};
ghost use Rattle.bench.specs.State.{state_of};
ghost use Rattle.bench.specs.declared.fault.Fault.TheVariants.{Below};
ghost use Rattle.bench.specs.declared.fault.LoadFault.TheVariants.{Table};

use super::Bench;
use crate::fault::{Fault, LoadFault, Reason, TableFault};
use crate::lists::lists;
use crate::shelf::{Draft, Shelf};

// The table was full at this place.
fn full(shelf: u8, place: usize) -> Fault
    ensures { result ≡ Below shelf (Table (record { place = place })) }
{
    Fault::Below {
        shelf,
        fault: LoadFault::from(TableFault { place }),
    }
}

impl Bench<'_> {
    // The policy on the shelf, where it is not closed yet.
    fn draft(&self, shelf: u8) -> Result<Draft, Fault>
        ensures is { result ≡ draft_at (state_of self.now) shelf }
        ensures stands { DraftStands (state_of self.now) result }
    {
        match self.at(shelf)? {
            Shelf::Empty => Err(Reason::Empty.on(shelf)),
            Shelf::Draft(draft) => Ok(draft),
            Shelf::Closed(_, _) => Err(Reason::AlreadyClosed.on(shelf)),
        }
    }

    // Empties the shelf. Its nodes stay until they are swept.
    pub fn drop_shelf(&mut self, shelf: u8) -> Result<(), Fault>
        ensures { (state_of self.new, result) ≡ drops (state_of self.old) shelf }
    {
        self.policy(shelf)?;
        self.shelves[shelf as usize] = Shelf::Empty;
        Ok(())
    }

    // Prepares a draft for extend, reach and root. Refused where the table is full; then nothing has changed.
    pub fn close(&mut self, shelf: u8) -> Result<(), Fault>
        ensures { (state_of self.new, result) ≡ closes (state_of self.old) shelf }
    {
        let draft = self.draft(shelf)?;
        let mut fill = self.diagrams.len();
        let built = lists(&mut self.diagrams, &mut fill, draft);
        self.diagrams.roll_back(fill);
        match built {
            Ok(lists) => {
                self.shelves[shelf as usize] = Shelf::Closed(draft, lists);
                Ok(())
            }
            Err(_) => Err(full(shelf, 0)),
        }
    }
}
