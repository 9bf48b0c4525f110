ghost use Rattle.std.specs.Prelude.{◌≡◌, [], ◌∷◌, decimal};
ghost use Rattle.inspect.specs.Plain.{is_plain, kept};
ghost use Rattle.inspect.specs.Written.{written, Adds};

use super::Text;
use std::alloc::{AllocError, Global};

// Whether a byte is printable or a line end.
fn is_plain(byte: u8) -> bool
    ensures { result ≡ is_plain byte }
{
    byte == b'\n' || (byte >= 0x20 && byte <= 0x7e)
}

impl Text {
    pub(crate) fn new(heap: Global) -> Text
        ensures { written result ≡ [] }
    {
        Text {
            text: String::new(heap),
        }
    }

    pub(crate) fn as_str(&self) -> &str
        ensures { result.now ≡ written self.now }
    {
        self.text.as_str()
    }

    // Adds a byte if it is plain.
    fn push(&mut self, byte: u8) -> Result<(), AllocError>
        ensures { Adds result self.old self.new (kept (byte ∷ [])) }
    {
        if is_plain(byte) {
            self.text.push(byte as char)?;
        }
        Ok(())
    }

    // Adds those of the bytes that are plain.
    pub(crate) fn bytes(&mut self, bytes: &[u8]) -> Result<(), AllocError>
        ensures { Adds result self.old self.new (kept bytes.now) }
    {
        for byte in bytes {
            self.push(*byte)?;
        }
        Ok(())
    }

    pub(crate) fn add(&mut self, words: &str) -> Result<(), AllocError>
        ensures { Adds result self.old self.new (kept words.now) }
    {
        self.bytes(words.as_bytes())
    }

    #[tactic(auto, using(crate::proofs::Keeping::kept_decimal))]
    pub(crate) fn number(&mut self, number: usize) -> Result<(), AllocError>
        ensures { Adds result self.old self.new (decimal number) }
    {
        let heap = *self.text.allocator();
        let digits = number.to_string(heap)?;
        self.add(digits.as_str())
    }
}
