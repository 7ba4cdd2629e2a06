// Arithmetic modulo N for the congruence groups: a common divisor with its multiplier, units, and the index of Γ0(N) by
// its primes. The functions have `requires`, for they are called from inside the engine.
ghost use Rattle.std.specs.Prelude.{◌≡◌, ◌*◌, ◌≤◌, ◌<◌};
ghost use Rattle.congruence.specs.Index.{index0, is_half_unit, half_units};
ghost use Rattle.congruence.specs.Inner.Common.{Modulus, CommonOf};

// The greatest common divisor g of N and a number c, a multiplier s with s c = g modulo N, and the part h = N / g.
#[derive(Clone, Copy)]
pub struct Common {
    pub g: u64,
    pub s: u64,
    pub h: u64,
}

// Euclid's algorithm: r0 = -s0 c and r1 = s1 c modulo n all along, r0 s1 + r1 s0 = n, and what divides r0 and r1
// divides n and c.
pub fn common_divisor(n: u64, c: u64) -> Common
    requires { Modulus n × (c < n) }
    ensures { CommonOf n c result }
{
    let mut r0 = n;
    let mut s0: u64 = 0;
    let mut r1 = c;
    let mut s1: u64 = 1;
    // a `while`: a step of Euclid's algorithm makes the bound
    while 0 < r1 {
        s0 += r0 / r1 * s1;
        r0 %= r1;
        if r0 == 0 {
            return Common {
                g: r1,
                s: s1,
                h: s0,
            };
        }
        s1 += r1 / r0 * s0;
        r1 %= r0;
    }
    Common {
        g: r0,
        s: n - s0,
        h: s1,
    }
}

// The index of Γ0(N), prime by prime: one more prime p makes it p times as large if p has been met, and p + 1 times if
// not.
pub fn index_of_gamma0(n: u64) -> u64
    requires { Modulus n }
    ensures value { result ≡ index0 n }
    ensures upper_bound { result ≤ n * n }
{
    let mut rest = n;
    let mut met: u64 = 1;
    let mut index: u64 = 1;
    let mut p: u64 = 2;
    // a `while`: a prime that is found makes the bound
    while 1 < rest {
        if rest % p != 0 {
            p += 1;
        } else {
            index *= if met % p == 0 { p } else { p + 1 };
            met *= p;
            rest /= p;
        }
    }
    index
}

// Whether u is a unit modulo N and, of u and N - u, one that isn't above N / 2.
fn is_half_unit(n: u64, u: u64) -> bool
    requires { Modulus n × (u < n) }
    ensures { result ≡ is_half_unit n u }
{
    u + u <= n && common_divisor(n, u).g == 1
}

// How many units modulo N there are up to sign.
pub fn half_units(n: u64) -> u64
    requires { Modulus n }
    ensures value { result ≡ half_units n }
    ensures upper_bound { result ≤ n }
{
    let mut count: u64 = 0;
    for u in 0..n {
        if is_half_unit(n, u) {
            count += 1;
        }
    }
    count
}
