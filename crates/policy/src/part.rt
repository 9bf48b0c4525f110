// The parts of a file after its opening, in the order in which they come.
#[derive(Clone, Copy, Debug, PartialEq, Eq, PartialOrd, Ord)]
pub enum Part {
    Attributes = 1,
    Operators = 2,
    Constraints = 3,
    Policy = 4,
}
