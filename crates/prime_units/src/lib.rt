// Primes, powers of a prime, inverses modulo a prime power, and units that generate with -1 all units (`units`).
// specs/Inner has what the functions promise.
#![tactic(auto)]

ghost use Rattle.std.specs.Prelude.{◌≡◌, true, ◌≤◌, ◌<◌};
ghost use Rattle.congruence.specs.Index.{is_prime};
ghost use Rattle.congruence_decision.specs.Maps.{Share};
ghost use Rattle.prime_units.specs.Inner.Numbers.{OwnPart, InverseOrNone};

pub mod units;

// Whether p is a prime.
pub fn is_prime(p: usize) -> bool
    ensures { result ≡ is_prime p }
{
    if p < 2 {
        return false;
    }
    let mut d: usize = 2;
    while p % d != 0 {
        d += 1;
    }
    d == p
}

// The largest power of p that divides d.
pub fn own_part(d: usize, p: usize) -> usize
    requires { (1 < p) × (p ≤ 4096) × (0 < d) × (d ≤ 4096) }
    ensures { OwnPart p d result }
{
    let mut r: usize = 1;
    // a `while`: how many powers there are is what it finds
    while d % (r * p) == 0 {
        r = r * p;
    }
    r
}

// The inverse of g modulo q, from 1 to q; 0 where there is none.
pub fn inverse(q: usize, g: usize) -> usize
    requires { (1 < q) × (q ≤ 4096) × (g ≤ q) }
    ensures { InverseOrNone q g result }
{
    for h in 1..q + 1 {
        if g * h % q == 1 {
            return h;
        }
    }
    0
}

// A share of p in the width d: a number that is 1 modulo the power of p in d, and 0 modulo the rest of d.
pub fn share(d: usize, p: usize) -> usize
    requires { (is_prime p ≡ true) × (p ≤ 4096) × (0 < d) × (d ≤ 4096) }
    ensures { Share p d result × (result ≤ 4096) }
{
    let r = own_part(d, p);
    let co = d / r;
    let one = 1 % r;
    let mut e: usize = 0;
    // a `while`: that one of the multiples fits is a theorem, and no count of the code
    while e % r != one {
        e += co;
    }
    e
}
