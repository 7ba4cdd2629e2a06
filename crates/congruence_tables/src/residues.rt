// Right cosets by small numbers modulo N, so that two cosets are the same exactly when their pairs of numbers are:
// their products with S and R. The functions have `requires`, for they are called from inside the engine.
ghost use Rattle.std.specs.Prelude.{◌≡◌, ◌+◌, ◌-◌, ◌%◌, ◌<◌};
ghost use Rattle.matrix.specs.Matrix.{mat_s, mat_r};
ghost use Rattle.congruence.specs.Inner.Common.{Modulus};
ghost use Rattle.congruence_tables.specs.Inner.Residues.{ResiduesOf, ProductWith, negated, TurnsRow, SignedOf};
ghost use Rattle.congruence_tables.specs.Inner.Residues.{SignedRow, SmallOf, first_of, second_of, multiplier_of};

use congruence::Family;

// A coset: of Γ one of its matrices modulo N; of Γ1 the bottom row (c d) of one, with zeros for a and b; of Γ0 such a
// row, and for a and b the coordinates of the point (c : d).
#[derive(Clone, Copy)]
pub struct Residues {
    pub a: u64,
    pub b: u64,
    pub c: u64,
    pub d: u64,
}

// -c modulo n.
pub fn opposite(n: u64, c: u64) -> u64
    requires { Modulus n × (c < n) }
    ensures { result ≡ negated n c }
{
    if c == 0 {
        return 0;
    }
    n - c
}

// d - c modulo n.
pub fn difference(n: u64, d: u64, c: u64) -> u64
    requires { Modulus n × (c < n) × (d < n) }
    ensures { result ≡ (d + (n - c)) % n }
{
    if c <= d {
        return d - c;
    }
    d + (n - c)
}

// x S modulo n.
pub fn times_s(n: u64, x: Residues) -> Residues
    requires { Modulus n × ResiduesOf n x }
    ensures { ProductWith n mat_s x result }
{
    Residues {
        a: x.b,
        b: opposite(n, x.a),
        c: x.d,
        d: opposite(n, x.c),
    }
}

// x R modulo n.
pub fn times_r(n: u64, x: Residues) -> Residues
    requires { Modulus n × ResiduesOf n x }
    ensures { ProductWith n mat_r x result }
{
    Residues {
        a: x.b,
        b: difference(n, x.b, x.a),
        c: x.d,
        d: difference(n, x.d, x.c),
    }
}

// Whether the row (-c -d) is before (c d) in the order of residues; if they are equal, either answer will do.
fn turns(n: u64, c: u64, d: u64) -> bool
    requires { Modulus n × (c < n) × (d < n) }
    ensures { TurnsRow n c d result }
{
    let p = opposite(n, c);
    if p < c {
        return true;
    }
    if c < p {
        return false;
    }
    opposite(n, d) < d
}

// Of x and -x the one whose bottom row is first.
pub fn signed(n: u64, x: Residues) -> Residues
    requires { Modulus n × ResiduesOf n x }
    ensures { SignedOf n x result }
{
    if !turns(n, x.c, x.d) {
        return x;
    }
    Residues {
        a: opposite(n, x.a),
        b: opposite(n, x.b),
        c: opposite(n, x.c),
        d: opposite(n, x.d),
    }
}

// Of the rows (c d) and (-c -d) the first one.
pub fn signed_row(n: u64, c: u64, d: u64) -> Residues
    requires { Modulus n × (c < n) × (d < n) }
    ensures { SignedRow n c d result }
{
    if !turns(n, c, d) {
        return Residues {
            a: 0,
            b: 0,
            c: c,
            d: d,
        };
    }
    Residues {
        a: 0,
        b: 0,
        c: opposite(n, c),
        d: opposite(n, d),
    }
}

// The first number of the pair that tells cosets of the family apart.
pub fn first(f: Family, x: Residues) -> u16
    requires { SmallOf x }
    ensures { result ≡ first_of f x }
{
    match f {
        Family::Gamma0 => x.a as u16,
        Family::Gamma1 => x.c as u16,
        Family::Gamma => (64 * x.a + x.b) as u16,
    }
}

// The second.
pub fn second(f: Family, x: Residues) -> u16
    requires { SmallOf x }
    ensures { result ≡ second_of f x }
{
    match f {
        Family::Gamma0 => x.b as u16,
        Family::Gamma1 => x.d as u16,
        Family::Gamma => (64 * x.c + x.d) as u16,
    }
}

// A multiplier that spreads the pairs of the family over the buckets.
pub fn multiplier(f: Family, n: u64) -> usize
    ensures { result ≡ multiplier_of f n }
{
    match f {
        Family::Gamma0 => 3,
        Family::Gamma1 => n as usize,
        Family::Gamma => 3942,
    }
}
