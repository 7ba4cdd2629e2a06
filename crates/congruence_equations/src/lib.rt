// The equations that decide whether a subgroup is a congruence subgroup (congruence_decision/specs/Equations.antt), on
// its cosets by their places in the order of the cusps. specs/Inner has what the functions promise.
#![tactic(auto)]

ghost use Rattle.std.specs.Prelude.{◌≡◌, true, ◌*◌, ◌≤◌, ◌<◌, ◌%◌};
ghost use Rattle.figures.specs.Inner.Scan.{held_t};
ghost use Rattle.same_coset.specs.Inner.Places.{Prepared, run_place};
ghost use Rattle.congruence_decision.specs.Equations.{BaseEquations, UnitEquations, ProductEquations};
ghost use Rattle.congruence_equations.specs.Inner.Places.{turn_at, go_at, back_at, low_at, weyl_at, diagonal_at};
ghost use Rattle.congruence_equations.specs.Inner.Places.{beside_at, Arguments, Lands, SaysOf, BraidAt, FourthAt};
ghost use Rattle.congruence_equations.specs.Inner.Places.{CrossesAt, TurnedAt, FlippedAt, BaseAt, UnitAt};
ghost use Rattle.congruence_equations.specs.Inner.Places.{ProductAt};

use same_coset::t_runs::{END, TURN, WIDTH};

// Where the shares begin.
pub const SHARES: usize = 8192;

// ---- maps of the places

// T^k
fn run_on(w: &[u16], n: usize, k: usize, y: usize) -> usize
    requires { Prepared n w.now × (y < n) }
    ensures { result ≡ run_place (held_t n w.now) true k y }
{
    let end = call::workspace::index(w[END + y]);
    let d = call::workspace::index(w[WIDTH + y]);
    let next = y + k % d;
    if next < end {
        return next;
    }
    next - d
}

// S
fn turn(w: &[u16], n: usize, y: usize) -> usize
    requires { Prepared n w.now × (y < n) }
    ensures { Lands n (turn_at w.now y) result }
{
    call::workspace::index(w[TURN + y])
}

// X a
fn go(w: &[u16], n: usize, a: usize, y: usize) -> usize
    requires { Prepared n w.now × (a ≤ 4096) × (y < n) }
    ensures { Lands n (go_at n w.now a y) result }
{
    let e = call::workspace::index(w[SHARES + y]);
    run_on(w, n, a * e, y)
}

// T⁻¹
fn back(w: &[u16], n: usize, y: usize) -> usize
    requires { Prepared n w.now × (y < n) }
    ensures { Lands n (back_at n w.now y) result }
{
    let d = call::workspace::index(w[WIDTH + y]);
    run_on(w, n, d - 1, y)
}

// S, X a, S
fn low(w: &[u16], n: usize, a: usize, y: usize) -> usize
    requires { Prepared n w.now × (a ≤ 4096) × (y < n) }
    ensures { Lands n (low_at n w.now a y) result }
{
    let z = turn(w, n, y);
    let k = go(w, n, a, z);
    turn(w, n, k)
}

// W
fn weyl(w: &[u16], n: usize, y: usize) -> usize
    requires { Prepared n w.now × (y < n) }
    ensures { Lands n (weyl_at n w.now y) result }
{
    let z = go(w, n, 1, y);
    let k = low(w, n, 1, z);
    go(w, n, 1, k)
}

// D
fn diagonal(w: &[u16], n: usize, q: usize, g: usize, h: usize, y: usize) -> usize
    requires { Prepared n w.now × Arguments q g h × (y < n) }
    ensures { Lands n (diagonal_at n w.now q g h y) result }
{
    let z = low(w, n, q + 1 - h, y);
    let k = go(w, n, 1, z);
    let l = low(w, n, q + 1 - g, k);
    go(w, n, q - h, l)
}

// L^(1 - e)
fn beside(w: &[u16], n: usize, y: usize) -> usize
    requires { Prepared n w.now × (y < n) }
    ensures { Lands n (beside_at n w.now y) result }
{
    let z = turn(w, n, y);
    let k = go(w, n, 1, z);
    let l = back(w, n, k);
    turn(w, n, l)
}

// ---- the equations at a place

// S W = W S
fn braids(w: &[u16], n: usize, y: usize) -> bool
    requires { Prepared n w.now × (y < n) }
    ensures { SaysOf (BraidAt n w.now y) result }
{
    let z = turn(w, n, y);
    let a = weyl(w, n, z);
    let b = weyl(w, n, y);
    let c = turn(w, n, b);
    a == c
}

// W W W W = 1
fn fourths(w: &[u16], n: usize, y: usize) -> bool
    requires { Prepared n w.now × (y < n) }
    ensures { SaysOf (FourthAt n w.now y) result }
{
    let a = weyl(w, n, y);
    let b = weyl(w, n, a);
    let c = weyl(w, n, b);
    let d = weyl(w, n, c);
    d == y
}

// X 1 commutes with L^(1 - e).
fn crosses(w: &[u16], n: usize, y: usize) -> bool
    requires { Prepared n w.now × (y < n) }
    ensures { SaysOf (CrossesAt n w.now y) result }
{
    let z = beside(w, n, y);
    let a = go(w, n, 1, z);
    let x = go(w, n, 1, y);
    let b = beside(w, n, x);
    a == b
}

// D X 1 = X (g g) D
fn turns(w: &[u16], n: usize, q: usize, g: usize, h: usize, y: usize) -> bool
    requires { Prepared n w.now × Arguments q g h × (y < n) }
    ensures { SaysOf (TurnedAt n w.now q g h y) result }
{
    let d = diagonal(w, n, q, g, h, y);
    let a = go(w, n, 1, d);
    let e = go(w, n, g * g % q, y);
    let b = diagonal(w, n, q, g, h, e);
    a == b
}

// D W D = W
fn flips(w: &[u16], n: usize, q: usize, g: usize, h: usize, y: usize) -> bool
    requires { Prepared n w.now × Arguments q g h × (y < n) }
    ensures { SaysOf (FlippedAt n w.now q g h y) result }
{
    let d = diagonal(w, n, q, g, h, y);
    let e = weyl(w, n, d);
    let a = diagonal(w, n, q, g, h, e);
    let b = weyl(w, n, y);
    a == b
}

// The base equations at y, the braid first.
fn base_at(w: &[u16], n: usize, y: usize) -> bool
    requires { Prepared n w.now × (y < n) }
    ensures { SaysOf (BaseAt n w.now y) result }
{
    if !braids(w, n, y) {
        return false;
    }
    if !fourths(w, n, y) {
        return false;
    }
    crosses(w, n, y)
}

// The equations of a unit at y.
fn unit_at(w: &[u16], n: usize, q: usize, g: usize, h: usize, y: usize) -> bool
    requires { Prepared n w.now × Arguments q g h × (y < n) }
    ensures { SaysOf (UnitAt n w.now q g h y) result }
{
    if !turns(w, n, q, g, h, y) {
        return false;
    }
    flips(w, n, q, g, h, y)
}

// D of g and h, and then D of g2 and h2, is D of their products.
fn product_at(
    w: &[u16],
    n: usize,
    q: usize,
    g: usize,
    h: usize,
    g2: usize,
    h2: usize,
    y: usize,
) -> bool
    requires { Prepared n w.now × Arguments q g h × Arguments q g2 h2 × Arguments q (g * g2 % q) (h * h2 % q)
        × (y < n) }
    ensures { SaysOf (ProductAt n w.now q g h g2 h2 y) result }
{
    let d = diagonal(w, n, q, g, h, y);
    let a = diagonal(w, n, q, g2, h2, d);
    let b = diagonal(w, n, q, g * g2 % q, h * h2 % q, y);
    a == b
}

// ---- everywhere

// The base equations.
pub fn base_passes(w: &[u16], n: usize) -> bool
    requires { Prepared n w.now }
    ensures { SaysOf (BaseEquations n (turn_at w.now) (go_at n w.now)
        (back_at n w.now)) result }
{
    for y in 0..n {
        if !base_at(w, n, y) {
            return false;
        }
    }
    true
}

// The equations of a unit g and its inverse h.
pub fn unit_passes(w: &[u16], n: usize, q: usize, g: usize, h: usize) -> bool
    requires { Prepared n w.now × Arguments q g h }
    ensures { SaysOf (UnitEquations n (turn_at w.now) (go_at n w.now) q g h) result }
{
    for y in 0..n {
        if !unit_at(w, n, q, g, h, y) {
            return false;
        }
    }
    true
}

// The product equations of two units.
pub fn product_passes(
    w: &[u16],
    n: usize,
    q: usize,
    g: usize,
    h: usize,
    g2: usize,
    h2: usize,
) -> bool
    requires { Prepared n w.now × Arguments q g h × Arguments q g2 h2 × Arguments q (g * g2 % q) (h * h2 % q) }
    ensures { SaysOf (ProductEquations n (turn_at w.now) (go_at n w.now) q g h g2 h2) result }
{
    for y in 0..n {
        if !product_at(w, n, q, g, h, g2, h2, y) {
            return false;
        }
    }
    true
}
