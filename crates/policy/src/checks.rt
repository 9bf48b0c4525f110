// The checks of the opening, of a name and of nine digits.
ghost use Rattle.std.specs.Prelude.{◌≡◌};
ghost use Rattle.policy.specs.Commands.{is_name, are_digits, zeros};
ghost use Rattle.policy.specs.Reading.{opening, differs};

// What every policy file begins with.
const OPENING: &[u8; 5] = b"PTAC\x01";

// The place of the first byte of the opening that is wrong or missing.
#[tactic(auto, using(crate::proofs::Spelling::opening_more, crate::proofs::Spelling::opening_all))]
pub(crate) fn wrong_opening(file: &[u8]) -> Option<usize>
    ensures { result ≡ differs opening file.now 0 }
{
    for (i, byte) in OPENING.iter().enumerate() {
        if file.get(i) != Some(byte) {
            return Some(i);
        }
    }
    None
}

// The first byte that a name may have before its 00.
const FIRST_PRINTABLE: u8 = 0x21;

// The last one.
const LAST_PRINTABLE: u8 = 0x7e;

// Whether each of these is 00.
fn are_zeros(bytes: &[u8]) -> bool
    ensures { result ≡ zeros bytes.now }
{
    bytes.iter().all(|byte| *byte == 0)
}

// Whether these are printable bytes, at least one, and then 00.
pub(crate) fn is_name(name: &[u8]) -> bool
    ensures { result ≡ is_name name.now }
{
    for (i, byte) in name.iter().enumerate() {
        if *byte == 0 {
            return i > 0 && are_zeros(&name[i..]);
        }
        if *byte < FIRST_PRINTABLE || *byte > LAST_PRINTABLE {
            return false;
        }
    }
    !name.is_empty()
}

// Whether each of these is 0, 1 or 2.
pub(crate) fn are_digits(digits: &[u8]) -> bool
    ensures { result ≡ are_digits digits.now }
{
    digits.iter().all(|digit| *digit <= 2)
}
