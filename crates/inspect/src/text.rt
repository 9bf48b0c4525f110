ghost use Rattle.std.specs.Prelude.{◌≡◌, true, string_bytes};
ghost use Rattle.inspect.specs.Plain.{all_plain};

mod add;

// A text that holds printable ASCII and line ends only, whatever it was made from.
#[derive(Drop)]
pub struct Text {
    text: String,
    ghost plain: { all_plain (string_bytes text) ≡ true },
}
