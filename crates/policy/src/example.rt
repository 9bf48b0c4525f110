ghost use Rattle.std.specs.Prelude.{◌≡◌};
ghost use Rattle.policy.specs.Examples.{nationality_file, Worked};

// The nationality file: who has the first of two nationalities may load the core, who has the second may not, and no
// one has both. The definitions give the worked answers on it and on damaged copies of it.
#[tactic(auto, using(crate::proofs::Worked::worked))]
pub fn nationality() -> &'static [u8; 29]
    ensures bytes { result.now ≡ nationality_file }
    ensures worked { Worked }
{
    b"PTAC\x01Anat\x00\x00\x00\x00\x00\x02M\x00\x01t\x001gt\x010gb\x12."
}
