// One command at a time.
ghost use Rattle.std.specs.Prelude.{◌≡◌};

use super::Reader;
use crate::checks::wrong_opening;
use crate::encoded::Encoded;
use crate::kinds::{Effect, Kinds};
use crate::opcode::Opcode;
use crate::part::Part;
use crate::{Attribute, Command, ReadFault, Row};
use arrayvec::ArrayVec;

// How long a file may be.
const MOST_BYTES: usize = 65_535;

// A command that is in order: its part, what it does to the stack, and where the next one begins.
#[derive(Clone, Copy)]
pub struct Checked<'f> {
    command: Command<'f>,
    part: Part,
    effect: Effect,
    next: usize,
}

impl<'f> Reader<'f> {
    ghost use Rattle.policy.specs.Commands as commands;
    ghost use Rattle.policy.specs.Reading.{unopened};
    ghost use Rattle.policy.specs.View.{command, progress, context, bytes, told, Opens, Begins, Settles, InOrder, Checks, UnlessTaken, next_step};
    ghost use Rattle.policy.specs.View as view;

    // A reader before the opening of a file.
    pub fn new(file: &'f [u8]) -> Reader<'f>
        ensures progress { progress result ≡ unopened }
        ensures bytes { bytes result ≡ file.now }
        ensures place { view.place result ≡ 5 }
    {
        Reader {
            file,
            place: 5,
            part: None,
            attributes: ArrayVec::new(),
            pairs: 0,
            operators: ArrayVec::new(),
            kinds: Kinds::none(),
        }
    }

    // Looks at the length and the opening of the file, if no one has yet.
    #[tactic(auto, using(crate::proofs::Steps::differs_long), unfolding(crate::specs::Reading::step, crate::specs::Reading::first_step, crate::specs::Reading::opened))]
    fn opened(&self) -> Result<(), ReadFault>
        ensures { Opens result self.now }
    {
        if self.part.is_some() {
            return Ok(());
        }
        if self.file.len() > MOST_BYTES {
            return Err(ReadFault::TooLong);
        }
        match wrong_opening(self.file) {
            Some(place) => Err(ReadFault::Opening { place }),
            None => Ok(()),
        }
    }

    // The next command as it stands in the file.
    #[tactic(auto, unfolding(crate::specs::Reading::command_step, crate::specs::Reading::begun))]
    fn begun(&self) -> Result<Encoded<'f>, ReadFault>
        ensures { Begins result self.now }
    {
        self.opened()?;
        let place = self.place;
        let size = self.file.len();
        if place >= size {
            return Err(ReadFault::CutShort { place });
        }
        let Ok(opcode) = Opcode::try_from(self.file[place]) else {
            return Err(ReadFault::UnknownCommand { place });
        };
        let next = place + 1 + opcode.size();
        if self.part.is_some_and(|reached| opcode.part() < reached) {
            return Err(ReadFault::EarlierPart { place });
        }
        if size < next {
            return Err(ReadFault::CutShort { place: size });
        }
        let operands = &self.file[place + 1..next];
        Ok(Encoded {
            place,
            opcode,
            operands,
            next,
        })
    }

    // Whether the operands of a command are allowed, after what was declared so far.
    fn allows(&self, taken: Command<'f>) -> bool
        ensures { result ≡ commands.allowed (context self.now) (command taken.entry) }
    {
        match taken {
            Command::Attribute { name, count } => self.may_declare(name, count),
            Command::Operator { digits } => self.may_add(digits),
            Command::Exclusion { first, second } => self.may_exclude(first, second),
            Command::AtMost { attribute, limit } => self.limits(attribute, limit),
            Command::AtLeast { attribute, limit } => self.limits(attribute, limit),
            Command::Pair { pair } => pair < self.pairs,
            Command::Constant { .. } => true,
            Command::Change { .. } => true,
            Command::Combine { operator } => self.has_operator(operator),
            Command::Guard => true,
            Command::End => true,
        }
    }

    // What a command does to the stack, if the command is in order.
    #[tactic(auto, unfolding(crate::specs::Reading::checked, crate::specs::Reading::settled))]
    fn settled(&self, encoded: Encoded<'f>, taken: Command<'f>) -> Result<Effect, ReadFault>
        ensures { Settles encoded.entry (command taken.entry) result self.now }
    {
        let place = encoded.place;
        if !self.allows(taken) {
            return Err(ReadFault::Operand { place });
        }
        let Some(effect) = self.kinds.effect(taken) else {
            return Err(ReadFault::Items { place });
        };
        if !self.kinds.has_room(effect) {
            return Err(ReadFault::StackFull { place });
        }
        if !taken.is_end() {
            return Ok(effect);
        }
        if !self.kinds.is_one_policy() {
            return Err(ReadFault::Ending { place });
        }
        if place + 1 < self.file.len() {
            return Err(ReadFault::Ending { place: place + 1 });
        }
        Ok(effect)
    }

    // The next command, if it is in order.
    #[tactic(auto, using(crate::proofs::Declared::not_allowed), unfolding(crate::specs::Reading::checked))]
    fn checked(&self) -> Result<Checked<'f>, ReadFault>
        ensures { Checks result self.now }
    {
        let encoded = self.begun()?;
        let Some(command) = encoded.decoded() else {
            return Err(ReadFault::Operand {
                place: encoded.place,
            });
        };
        let effect = self.settled(encoded, command)?;
        Ok(Checked {
            command,
            part: encoded.opcode.part(),
            effect,
            next: encoded.next,
        })
    }

    // Takes a command that is in order.
    fn take(&mut self, checked: Checked<'f>)
        requires { InOrder checked self.old }
        ensures is { told (Ok checked.entry.command) self.new ≡ next_step self.old }
        ensures same { bytes self.new ≡ bytes self.old }
    {
        self.kinds.apply(checked.effect);
        self.part = Some(checked.part);
        self.place = checked.next;
        match checked.command {
            Command::Attribute { name, count } => {
                let start = self.pairs;
                self.attributes.push(Attribute { name, start, count });
                self.pairs += count;
            }
            Command::Operator { digits } => self.operators.push(Row { entries: *digits }),
            _ => {}
        }
    }

    // The next command, or why the file is refused; then the reader stays as it is. After the end there is no command.
    pub fn next(&mut self) -> Result<Command<'f>, ReadFault>
        ensures is { told result self.new ≡ next_step self.old }
        ensures same { bytes self.new ≡ bytes self.old }
        ensures kept { UnlessTaken result self.old self.new }
    {
        let checked = self.checked()?;
        self.take(checked);
        Ok(checked.command)
    }
}
