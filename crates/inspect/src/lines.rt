// A line for each command of a file. The reader is lent to each method, and no part of a text: `lines` moves it on between two
// lines, and no other may.
#![tactic(auto, using(crate::proofs::Joins::then_adds))]

ghost use Rattle.std.specs.Prelude.{◌++◌, codes, decimal};
ghost use Rattle.policy.specs.View as view;
ghost use Rattle.inspect.specs.Lines as lists;
ghost use Rattle.inspect.specs.Names as names;
ghost use Rattle.inspect.specs.Plain.{kept};
ghost use Rattle.inspect.specs.Written.{Adds};

use crate::text::Text;
use policy::{Command, Operator, Reader};
use std::alloc::AllocError;

impl Text {
    fn declared(&mut self, name: &[u8], count: u8) -> Result<(), AllocError>
        ensures { Adds result self.old self.new (codes "attribute " ++ (kept name.now ++ (codes " " ++ decimal count))) }
    {
        self.add("attribute ")?;
        self.bytes(name)?;
        self.add(" ")?;
        self.number(count as usize)
    }

    fn digits(&mut self, digits: &[u8]) -> Result<(), AllocError>
        ensures { Adds result self.old self.new (lists.digits_text digits.now) }
    {
        for digit in digits {
            self.number(*digit as usize)?;
        }
        Ok(())
    }

    // The own operator that was declared last; one is declared by now.
    fn newest(&mut self, reader: &Reader) -> Result<(), AllocError>
        ensures { Adds result self.old self.new (names.operator_name (lists.newest_code (view.context reader.now))) }
    {
        self.operator(reader.newest().unwrap_or(Operator::Op20))
    }

    fn own(&mut self, reader: &Reader, entries: &[u8]) -> Result<(), AllocError>
        ensures { Adds result self.old self.new (codes "operator " ++ (names.operator_name (lists.newest_code (view.context reader.now)) ++ (codes " " ++ lists.digits_text entries.now))) }
    {
        self.add("operator ")?;
        self.newest(reader)?;
        self.add(" ")?;
        self.digits(entries)
    }

    fn exclusion(&mut self, reader: &Reader, first: u8, second: u8) -> Result<(), AllocError>
        ensures { Adds result self.old self.new (codes "never " ++ (names.pair_text (view.context reader.now) first ++ (codes " and " ++ names.pair_text (view.context reader.now) second))) }
    {
        self.add("never ")?;
        self.pair(reader, first)?;
        self.add(" and ")?;
        self.pair(reader, second)
    }

    fn limit(
        &mut self,
        reader: &Reader,
        words: &str,
        limit: u8,
        number: u8,
    ) -> Result<(), AllocError>
        ensures { Adds result self.old self.new (lists.limit_text (view.context reader.now) (kept words.now) limit number) }
    {
        self.add(words)?;
        self.number(limit as usize)?;
        self.add(" of ")?;
        self.attribute(reader, number)
    }

    // What a command does, by a reader that has just taken it.
    fn operands(&mut self, reader: &Reader, taken: Command) -> Result<(), AllocError>
        ensures { Adds result self.old self.new (lists.operands_text (view.context reader.now) (view.command taken.entry)) }
    {
        match taken {
            Command::Attribute { name, count } => self.declared(name, count),
            Command::Operator { digits } => self.own(reader, digits),
            Command::Exclusion { first, second } => self.exclusion(reader, first, second),
            Command::AtMost { attribute, limit } => self.limit(
                reader, "at most ", limit, attribute,
            ),
            Command::AtLeast { attribute, limit } => self.limit(
                reader,
                "at least ",
                limit,
                attribute,
            ),
            Command::Pair { pair } => {
                self.add("pair ")?;
                self.pair(reader, pair)
            }
            Command::Constant { decision } => self.constant(decision),
            Command::Change { change } => {
                self.add("change ")?;
                self.change(change)
            }
            Command::Combine { operator } => {
                self.add("combine ")?;
                self.operator(operator)
            }
            Command::Guard => self.add("guard"),
            Command::End => self.add("end"),
        }
    }

    // The line of a command that begins at this place.
    fn line(&mut self, reader: &Reader, place: usize, taken: Command) -> Result<(), AllocError>
        ensures { Adds result self.old self.new (lists.line_text (view.context reader.now) place (view.command taken.entry)) }
    {
        self.number(place)?;
        self.add(" ")?;
        self.operands(reader, taken)?;
        self.add("\n")
    }
}

// The lines of all commands ahead of a reader, up to the end of the file or to its first fault.
#[tactic(auto, using(crate::proofs::Lining::one_more, policy::proofs::Readers::place_moves, policy::proofs::Readers::place_within))]
pub(crate) fn lines(text: &mut Text, reader: &mut Reader) -> Result<(), AllocError>
    ensures { lists.Lists result text.old text.new reader.old reader.new }
{
    loop {
        let place = reader.place();
        let Ok(taken) = reader.next() else {
            return Ok(());
        };
        text.line(reader, place, taken)?;
    }
}
