// Whether a determinant is 1, where its entries are up to 2⁶⁰ in size: its two products have up to 120 bits.
ghost use Rattle.std.specs.Prelude.{◌≡◌, ◌^◌};
ghost use Rattle.matrix.specs.Matrix.{of_list};
ghost use Rattle.matrix.specs.Bounds.{Small};
ghost use Rattle.word.specs.Answer.{unit};

// Whether the determinant of m is 1.
pub fn determinant_is_one(m: [i64; 4]) -> bool
    requires { Small (2 ^ 60) (of_list m) }
    ensures { result ≡ unit m }
{
    let a = i128::from(m[0]);
    let b = i128::from(m[1]);
    let c = i128::from(m[2]);
    let d = i128::from(m[3]);
    a * d - b * c == 1
}
