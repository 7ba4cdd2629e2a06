// Two by two integer matrices as arrays of four numbers, row by row.
//
// Each function's contract gives its result as a definition over the integers (specs/Matrix.antt). The bounds that they
// ask for (specs/Bounds.antt) hold for vertices to 10^9 and for query matrices to 10^6: proofs/Bounds.antt has the
// laws.
#![tactic(auto)]

ghost use Rattle.std.specs.Prelude.{◌≡◌, ◌+◌, ◌-◌, ◌^◌, ◌≤◌, ◌+ℤ◌, ◌-ℤ◌, ◌*ℤ◌};
ghost use Rattle.matrix.specs.Matrix.{nth, of_list, to_list, ◌⊗◌, 𝟙, adj, det, mat_s, mat_t, mat_r, mat_q};
ghost use Rattle.matrix.specs.Bounds.{Adds, ProductFits, DetFits, Small};

// The identity.
pub fn identity() -> [i64; 4]
    ensures { result ≡ to_list 𝟙 }
{
    [1, 0, 0, 1]
}

// S = (0 -1; 1 0), which turns an edge round.
pub fn matrix_s() -> [i64; 4]
    ensures { result ≡ to_list mat_s }
{
    [0, -1, 1, 0]
}

// T = (1 1; 0 1), the translation.
pub fn matrix_t() -> [i64; 4]
    ensures { result ≡ to_list mat_t }
{
    [1, 1, 0, 1]
}

// R = S T.
pub fn matrix_r() -> [i64; 4]
    ensures { result ≡ to_list mat_r }
{
    [0, -1, 1, 1]
}

// Q = (0 -1; 1 -1), of order three.
pub fn matrix_q() -> [i64; 4]
    ensures { result ≡ to_list mat_q }
{
    [0, -1, 1, -1]
}

// x y + z w
fn sum_of_products(x: i64, y: i64, z: i64, w: i64) -> i64
    requires { Adds x y z w }
    ensures { result ≡ x *ℤ y +ℤ z *ℤ w }
{
    x * y + z * w
}

// x y - z w: as a sum of products it would first need -z, so each of the two has its function
fn difference_of_products(x: i64, y: i64, z: i64, w: i64) -> i64
    requires { Adds x y z w }
    ensures { result ≡ x *ℤ y -ℤ z *ℤ w }
{
    x * y - z * w
}

// The entry in the row of m that starts at i and in the column of n that starts at j.
fn entry(m: [i64; 4], n: [i64; 4], i: usize, j: usize) -> i64
    requires { (i ≤ 2) × (j ≤ 1) × Adds (nth m i) (nth n j) (nth m (i + 1)) (nth n (j + 2)) }
    ensures { result ≡ nth m i *ℤ nth n j +ℤ nth m (i + 1) *ℤ nth n (j + 2) }
{
    sum_of_products(m[i], n[j], m[i + 1], n[j + 2])
}

// The product of two matrices whose entries leave room for it.
pub fn product(m: [i64; 4], n: [i64; 4]) -> [i64; 4]
    requires { ProductFits (of_list m) (of_list n) }
    ensures { result ≡ to_list (of_list m ⊗ of_list n) }
{
    [
        entry(m, n, 0, 0),
        entry(m, n, 0, 1),
        entry(m, n, 2, 0),
        entry(m, n, 2, 1),
    ]
}

// The adjugate, which is the inverse of a matrix of determinant 1. No entry is the least i64, whose negative does not
// fit.
pub fn inverse(m: [i64; 4]) -> [i64; 4]
    requires { Small (2 ^ 63 - 1) (of_list m) }
    ensures { result ≡ to_list (adj (of_list m)) }
{
    [m[3], -m[1], -m[2], m[0]]
}

// The determinant of a matrix whose entries leave room for it.
pub fn determinant(m: [i64; 4]) -> i64
    requires { DetFits (of_list m) }
    ensures { result ≡ det (of_list m) }
{
    difference_of_products(m[0], m[3], m[1], m[2])
}
