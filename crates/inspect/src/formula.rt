// The policy of a file as a tree.
use policy::{Change, Decision, Operator};

mod build;

pub(crate) use build::formula;

// Two types, and not one tree over its leaves, which is no plainer: a guard has a target and a policy in it, so the leaf of a
// policy's tree would hold that tree again.
#[derive(Drop)]
pub enum Target {
    Pair(u8),
    Change(Change, Box<Target>),
    // the first and the second operand
    Combine(Operator, Box<Target>, Box<Target>),
}

#[derive(Drop)]
pub enum Policy {
    Always(Decision),
    Change(Change, Box<Policy>),
    Combine(Operator, Box<Policy>, Box<Policy>),
    Guard(Target, Box<Policy>),
}

// What stands on the stack.
#[derive(Drop)]
pub enum Item {
    Target(Target),
    Policy(Policy),
}
