// What an item on the stack of part four is. The default fills the places of the stack that are free.
#[derive(Clone, Copy, Debug, Default, PartialEq, Eq)]
pub enum Kind {
    #[default]
    Target,
    Policy,
}
