// Reduced ordered decision diagrams in memory that the owner lends.
#![tactic(auto)]

mod count;
mod diagrams;
mod kind;
mod mark;
mod memo;
mod node;
mod refusal;
mod rule;
mod spread;
mod sweep;
mod table;
mod view;

pub use diagrams::Diagrams;
pub use kind::{DecisionSets, Kind, Truth};
pub use mark::Mark;
pub use node::Node;
pub use refusal::Refusal;
pub use rule::Rule;
pub use table::TableFull;
pub use view::View;

// References below this are leaves; reference 8 + k is node k. They share one number, since a reference is a word of the lent
// memory.
pub const LEAVES: u32 = 8;

// The pairs that a node can test are 0 to 47.
pub const PAIRS: u32 = 48;

// A table has at most this many nodes.
pub const NODES: usize = 65536;
