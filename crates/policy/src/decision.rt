ghost use Rattle.std.specs.Prelude.{◌≡◌};
ghost use Rattle.policy.specs.Values as values;

// What a policy decides on a query.
#[derive(Clone, Copy, Debug, PartialEq, Eq)]
pub enum Decision {
    Deny = 0,
    Allow = 1,
    NotApplicable = 2,
}

impl Decision {
    pub fn number(self) -> u8
        ensures { result ≡ values.number self }
    {
        self as u8
    }
}
