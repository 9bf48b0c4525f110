// Policy files: what they mean, and a reader that is exact for every sequence of bytes.
#![tactic(auto)]

ghost use Rattle.policy.specs.Laws.{LawfullyRead};
ghost use Rattle.policy.specs.Reading.{reads};
ghost use Rattle.policy.specs.View.{Answers};

mod checks;
mod code;
mod command;
mod commands;
mod decision;
mod encoded;
mod example;
mod fault;
mod kind;
mod kinds;
mod opcode;
mod operator;
mod part;
mod reader;

pub use code::{Change, Operator, UnknownCode};
pub use command::{Attribute, Command};
pub use commands::Commands;
pub use decision::Decision;
pub use example::nationality;
pub use fault::ReadFault;
pub use operator::Row;
pub use reader::Reader;

// Reads the whole file, and answers how many pairs it has, or the first fault. Every file that reads well keeps the laws
// of `specs/Laws.antt`.
#[tactic(auto, using(crate::proofs::Readers::ahead_of_new, crate::proofs::Readers::ahead_of_refused, crate::proofs::Readers::stop_last, crate::proofs::Readers::stop_later, crate::proofs::Readers::place_moves, crate::proofs::Readers::place_within, crate::proofs::Readers::answers_fault, crate::proofs::Readers::answers_pairs, crate::proofs::Lawful::lawfully_read))]
pub fn check(file: &[u8]) -> Result<u8, ReadFault>
    ensures is { Answers result (reads file.now) }
    ensures laws { LawfullyRead file.now }
{
    let mut reader = Reader::new(file);
    loop {
        if reader.next()?.is_end() {
            return Ok(reader.pairs());
        }
    }
}
