// The tables of S, R and T of an accepted symbol, in the work space.
ghost use Rattle.std.specs.Prelude.{◌≡◌, ◌≤◌, ◌<◌, length};
ghost use Rattle.call.specs.Space.{work_length};
ghost use Rattle.symbol.specs.Symbol.{IsSymbol};
ghost use Rattle.polygon.specs.Cut.{places};
ghost use Rattle.polygon.specs.Step.{step_s, start_of, origin_of};
ghost use Rattle.polygon.specs.Inner.Tables.{PolygonTables};
ghost use Rattle.coset.specs.Inner.Work.{FilledS, Inside, FilledR, Arranged};

use numbering::{RHO, SIGMA};
use polygon::walking::{is_turned, step_s, turn_q};
use symbol::{Pairing, read_pairing};

// The S image of the place p; the outer face of a side that isn't odd stays.
pub fn image_s(t: &[i64], v: usize, w: &[u16], p: usize) -> usize
    requires { PolygonTables t.now v w.now × (p < places v) }
    ensures { result ≡ step_s v t.now p }
{
    let b = 3 * (v - 1);
    if p < b {
        return step_s(t, v, w, p);
    }
    let kind = read_pairing(v, t[2 * v + (p - b)]);
    match kind {
        Pairing::Even => p,
        Pairing::Odd => step_s(t, v, w, p),
        Pairing::Free(_) => p,
        Pairing::Bad => p,
    }
}

// The S images of all places.
fn fill_s(t: &[i64], v: usize, w: &mut [u16])
    requires { PolygonTables t.now v w.old }
    ensures { FilledS t.now v w.new (places v)
        × (length w.new ≡ length w.old) }
{
    let end = 3 * (v - 1) + (v + 1);
    for p in 0..end {
        let q = image_s(t, v, w, p);
        w[SIGMA + p] = q as u16;
    }
}

// The R images of all places: R is S, Q twice, and S.
fn fill_r(v: usize, w: &mut [u16])
    requires { Inside v w.old }
    ensures { FilledR v w.old w.new (places v) }
{
    let end = 3 * (v - 1) + (v + 1);
    for p in 0..end {
        let a = call::workspace::index(w[SIGMA + p]);
        let b = turn_q(v, a);
        let c = turn_q(v, b);
        w[RHO + p] = w[SIGMA + c];
    }
}

// The position that stands for H, from the one where the walk starts.
pub fn origin(t: &[i64], v: usize, w: &[u16], start: usize) -> usize
    requires { PolygonTables t.now v w.now × (start ≡ start_of v t.now) }
    ensures { result ≡ origin_of v t.now }
{
    if is_turned(t, v) {
        return step_s(t, v, w, start);
    }
    start
}

// The tables of S, R and T of an accepted symbol are put into the work space: how many cosets there are.
pub fn arrange(v: usize, t: &[i64], w: &mut [u16]) -> usize
    requires { IsSymbol v t.now × (work_length ≤ length w.old) }
    ensures { Arranged t.now v w.new result
        × (length w.new ≡ length w.old) }
{
    let start = polygon::build(t, v, w);
    let zero = origin(t, v, w, start);
    fill_s(t, v, w);
    fill_r(v, w);
    numbering::tables(w, zero, 3 * (v - 1) + (v + 1))
}
