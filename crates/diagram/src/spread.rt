ghost use Rattle.std.specs.Prelude.{◌≡◌, ◌<◌, ◌≤◌};
ghost use Rattle.diagram.specs.Spread.{spread as place};

// Spreads three words over so many places, by multiplications and one shift.
pub(crate) fn spread(many: usize, x: u32, y: u32, z: u32) -> usize
    requires some { 0 < many }
    requires few { many ≤ 65536 }
    ensures is { result ≡ place many x y z }
    ensures below { result < many }
{
    let a = x.wrapping_mul(2654435769).wrapping_add(y);
    let b = a.wrapping_mul(2246822519).wrapping_add(z);
    let hash = b.wrapping_mul(3266489917);
    ((hash as u64 * many as u64) >> 32) as usize
}
