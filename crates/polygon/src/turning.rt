// Turns within a triangle.
ghost use Rattle.std.specs.Prelude.{◌<◌};
ghost use Rattle.polygon.specs.Corner.{TurnsTo};

// The corner that a turn by Q, or by Q⁻¹ where `inverse` holds, leads to from corner c: by the remainder by 3, without
// a branch.
pub fn next_corner(c: usize, inverse: bool) -> usize
    requires { c < 3 }
    ensures { (result < 3) × TurnsTo inverse c result }
{
    (c + 1 + inverse as usize) % 3
}
