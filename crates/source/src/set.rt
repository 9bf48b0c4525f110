ghost use Rattle.std.specs.Prelude.{◌≡◌};
ghost use Rattle.source.specs.Sets.{has};

// Whether a pair is in a set; a set holds none above 63.
pub(crate) fn contains(set: u64, pair: u8) -> bool
    ensures { result ≡ has set pair }
{
    pair < 64 && (set >> pair) & 1 == 1
}
