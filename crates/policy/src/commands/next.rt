ghost use Rattle.std.specs.Prelude.{◌≡◌};
ghost use Rattle.std.specs.Iterator.{item_count};
ghost use Rattle.policy.specs.Reading.{commands_of};
ghost use Rattle.policy.specs.View.{to_come, Yields};

use super::Commands;
use crate::{Command, Reader};

impl<'f> Commands<'f> {
    #[tactic(auto, using(crate::proofs::Readers::ahead_of_new))]
    pub fn of(file: &'f [u8]) -> Commands<'f>
        ensures { to_come result ≡ commands_of file.now }
    {
        Commands {
            reader: Reader::new(file),
            over: false,
        }
    }

    // The reader, which knows what was declared so far and where the next command begins.
    pub fn reader(&self) -> &Reader<'f>
        ensures { result.now ≡ self.now.reader }
    {
        &self.reader
    }
}

impl<'f> Iterator for Commands<'f> {
    type Item = Command<'f>;

    ghost next_gives = { Yields };

    ghost remaining = { item_count to_come };

    #[tactic(auto, using(crate::proofs::Readers::first_to_come, crate::proofs::Readers::ahead_of_refused))]
    fn next(&mut self) -> Option<Command<'f>> {
        if self.over {
            return None;
        }
        let command = self.reader.next().ok();
        self.over = command.map_or(true, |command| command.is_end());
        command
    }
}
