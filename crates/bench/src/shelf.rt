// What stands on one of the four shelves. The numbers are references into the table of diagrams.
#[derive(Clone, Copy, Debug, PartialEq, Eq)]
pub enum Shelf {
    Empty,
    Draft(Draft),
    Closed(Draft, Lists),
}

// A policy as it was loaded: how many pairs it has, where queries are valid (S) and what it decides (B).
#[derive(Clone, Copy, Debug, PartialEq, Eq)]
pub struct Draft {
    pub pairs: u8,
    pub valid: u32,
    pub decides: u32,
}

// What closing adds: the decisions that are listed at each query (E), and which queries some valid one contains (R).
#[derive(Clone, Copy, Debug, PartialEq, Eq)]
pub struct Lists {
    pub lists: u32,
    pub reaches: u32,
}
