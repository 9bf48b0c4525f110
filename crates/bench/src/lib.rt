// The policy bench: up to four policies as decision diagrams in one table of lent memory, asked through attribute sources.
#![tactic(auto)]

mod bench;
mod build;
mod fault;
mod lists;
mod shelf;
mod steps;

pub use bench::Bench;
pub use fault::{Fault, LoadFault, Reason, TableFault};
pub use shelf::{Draft, Lists, Shelf};
