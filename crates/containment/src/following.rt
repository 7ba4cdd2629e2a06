// Following the positions of one symbol, of n vertices in u, in those of another, of v vertices in t: no coset gets a
// number, and no table is made of the first symbol but where S leads. From the origin it goes up to the last side, from
// there down to all triangles, and then S is compared at all corners, up to the first that differs.
// specs/Inner/Following.antt says what the parts promise, proofs/Tracked.antt why this decides containment.
ghost use Rattle.std.specs.Prelude.{◌≡◌, ℕ, ◌≤◌, ◌<◌, length};
ghost use Rattle.call.specs.Space.{work_length};
ghost use Rattle.symbol.specs.Symbol.{IsSymbol};
ghost use Rattle.polygon.specs.Cut.{corners, places, flip};
ghost use Rattle.polygon.specs.Step.{Real, step_s, origin_of};
ghost use Rattle.polygon.specs.Inner.Tables.{PolygonTables};
ghost use Rattle.containment.specs.TwoSymbols.{contained};
ghost use Rattle.containment.specs.Inner.Following.{StepsOf, Beside, under_last, corner_zero, Forces, laid};
ghost use Rattle.containment.specs.Inner.Following.{laid_at, image_below, ImagesLaid, agrees_at, Agreed, CarriedTo};

use coset::arrange::{image_s, origin};
use coset::steps::turn;
use polygon::FLIP;
use polygon::walking::{step_s, turn_q};

// Where images are noted in the work space.
const TO: usize = 16384;

// Where S leads from each place of the symbol whose polygon is in the work space.
pub fn hold_steps(v: usize, t: &[i64], w: &[u16], s: &mut [u16])
    requires { PolygonTables t.now v w.now × (length s.old ≡ 4096) }
    ensures { StepsOf v t.now s.new }
{
    let end = 3 * (v - 1) + (v + 1);
    for p in 0..end {
        let q = image_s(t, v, w, p);
        s[p] = q as u16;
    }
}

// The polygon of an accepted symbol is put into the work space: returns the position that stands for its subgroup.
pub fn lay_out(v: usize, t: &[i64], w: &mut [u16]) -> usize
    requires { IsSymbol v t.now × (work_length ≤ length w.old) }
    ensures { (result ≡ origin_of v t.now) × PolygonTables t.now v w.new
        × (length w.new ≡ length w.old) }
{
    let start = polygon::build(t, v, w);
    origin(t, v, w, start)
}

// What lies beyond the edge at p.
fn beyond(u: &[i64], n: usize, w: &[u16], p: usize) -> usize
    requires { PolygonTables u.now n w.now × (p < places n) }
    ensures { result ≡ flip n u.now p }
{
    call::workspace::index(w[FLIP + p])
}

// Where corner 0 of a triangle goes, if its corner c goes to y.
fn corner_zero(v: usize, y: usize, c: usize) -> usize
    requires { (1 ≤ v) × (v ≤ 1023) }
    ensures { result ≡ corner_zero v y c }
{
    if c == 0 {
        return y;
    }
    if c == 1 {
        return turn(v, y, true);
    }
    turn_q(v, y)
}

// S at the position y, by the table s.
fn step(v: usize, t: &[i64], s: &[u16], y: usize) -> usize
    requires { IsSymbol v t.now × StepsOf v t.now s.now × Real v t.now y }
    ensures { (result ≡ step_s v t.now y) × Real v t.now result }
{
    call::workspace::index(s[y])
}

// Where the corner under the last side goes, if the corner p goes to y: up from triangle to triangle.
fn climb(
    v: usize,
    t: &[i64],
    s: &[u16],
    n: usize,
    u: &[i64],
    w: &[u16],
    p: usize,
    y: usize,
) -> usize
    requires { Beside v t.now s.now n u.now w.now × (p < corners n) × Real v t.now y }
    ensures { Forces v t.now n u.now p y (under_last n u.now) result
        × Real v t.now result }
{
    let b = 3 * (n - 1);
    let mut q = p - p % 3;
    let mut z = corner_zero(v, y, p % 3);
    let mut x = beyond(u, n, w, q);
    // a `while`: it goes from triangle to triangle until it is below the last side
    while x < b {
        let a = step(v, t, s, z);
        z = corner_zero(v, a, x % 3);
        q = x - x % 3;
        x = beyond(u, n, w, q);
    }
    z
}

// Where what lies beyond q goes, if q is a corner; else root.
fn image_below(v: usize, t: &[i64], s: &[u16], n: usize, w: &[u16], root: usize, q: usize) -> usize
    requires { IsSymbol v t.now × StepsOf v t.now s.now × (1 ≤ n) × (n ≤ 1023) × (32768 ≤ length w.now)
        × (q < corners n → Real v t.now (laid_at w.now q)) }
    ensures { result ≡ image_below v t.now n w.now root q }
{
    if q < 3 * (n - 1) {
        return step(v, t, s, call::workspace::index(w[TO + q]));
    }
    root
}

// The images of a triangle's corners are noted: y for corner 0, which is p.
fn lay(v: usize, w: &mut [u16], p: usize, y: usize)
    requires { (1 ≤ v) × (v ≤ 1023) × (p < 4090) × (y < places v) × (32768 ≤ length w.old) }
    ensures { w.new ≡ laid v w.old p y }
{
    let forth = turn_q(v, y);
    let back = turn(v, y, true);
    w[TO + p] = y as u16;
    w[TO + (p + 1)] = forth as u16;
    w[TO + (p + 2)] = back as u16;
}

// The images of all corners are noted, if the one under the last side goes to root: down from triangle to triangle.
fn descend(v: usize, t: &[i64], s: &[u16], n: usize, u: &[i64], w: &mut [u16], root: usize)
    requires { Beside v t.now s.now n u.now w.old × Real v t.now root }
    ensures { ImagesLaid v t.now n u.now w.new root 0
        × (length w.new ≡ length w.old) }
{
    let mut k = n - 1;
    while 0 < k {
        let j = k - 1;
        let q = beyond(u, n, w, 3 * j);
        let y = image_below(v, t, s, n, w, root, q);
        lay(v, w, 3 * j, y);
        k = j;
    }
}

// Whether S from the corner p agrees with what is noted.
fn agrees(v: usize, t: &[i64], s: &[u16], n: usize, u: &[i64], w: &[u16], p: usize) -> bool
    requires { Beside v t.now s.now n u.now w.now × (p < corners n) × Real v t.now (laid_at w.now p) }
    ensures { result ≡ agrees_at v t.now n u.now w.now p }
{
    let z = step_s(u, n, w, p);
    let y = step(v, t, s, call::workspace::index(w[TO + p]));
    if z < 3 * (n - 1) {
        return call::workspace::index(w[TO + z]) == y;
    }
    if y < 3 * (v - 1) {
        return false;
    }
    true
}

// Whether it does from all corners.
fn all_agree(v: usize, t: &[i64], s: &[u16], n: usize, u: &[i64], w: &[u16]) -> bool
    requires { Beside v t.now s.now n u.now w.now
        × ((p : ℕ) → p < corners n → Real v t.now (laid_at w.now p)) }
    ensures { Agreed v t.now n u.now w.now result }
{
    let b = 3 * (n - 1);
    for p in 0..b {
        if !agrees(v, t, s, n, u, w, p) {
            return false;
        }
    }
    true
}

// Whether the corners go somewhere, and p to y.
fn carries(
    v: usize,
    t: &[i64],
    s: &[u16],
    n: usize,
    u: &[i64],
    w: &mut [u16],
    p: usize,
    y: usize,
) -> bool
    requires { Beside v t.now s.now n u.now w.old × (p < corners n) × Real v t.now y }
    ensures { CarriedTo v t.now n u.now p y result
        × PolygonTables u.now n w.new
        × (length w.new ≡ length w.old) }
{
    let root = climb(v, t, s, n, u, w, p, y);
    descend(v, t, s, n, u, w, root);
    let z = call::workspace::index(w[TO + p]);
    if z != y {
        return false;
    }
    all_agree(v, t, s, n, u, w)
}

// Whether the subgroup of t contains that of u, which has no triangles: one or two positions, which turns don't move.
fn follow_lone(
    v: usize,
    t: &[i64],
    s: &[u16],
    y: usize,
    n: usize,
    u: &[i64],
    w: &[u16],
    o: usize,
) -> bool
    requires { Beside v t.now s.now n u.now w.now × (n ≡ 1) × (y ≡ origin_of v t.now)
        × (o ≡ origin_of n u.now) }
    ensures { result ≡ contained n u.now v t.now }
{
    let b = 3 * (v - 1);
    let z = step(v, t, s, y);
    let q = step_s(u, n, w, o);
    if y < b {
        return false;
    }
    if z < b {
        return false;
    }
    if q == o {
        return z == y;
    }
    true
}

// Whether the subgroup of t contains that of u, whose polygon is in the work space and stays there; s holds the steps
// of t, and y and o are the positions that stand for the subgroups.
pub fn follow(
    v: usize,
    t: &[i64],
    s: &[u16],
    y: usize,
    n: usize,
    u: &[i64],
    w: &mut [u16],
    o: usize,
) -> bool
    requires { Beside v t.now s.now n u.now w.old × (y ≡ origin_of v t.now) × (o ≡ origin_of n u.now) }
    ensures { (result ≡ contained n u.now v t.now)
        × PolygonTables u.now n w.new
        × (length w.new ≡ length w.old) }
{
    if n == 1 {
        return follow_lone(v, t, s, y, n, u, w, o);
    }
    if o < 3 * (n - 1) {
        return carries(v, t, s, n, u, w, o, y);
    }
    let p = step_s(u, n, w, o);
    let z = step(v, t, s, y);
    carries(v, t, s, n, u, w, p, z)
}
