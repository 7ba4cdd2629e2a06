// The walk over the sides from the left: what is closed moves on, the first open side is split.
ghost use Rattle.std.specs.Prelude.{◌≡◌, ◌+◌, ◌*◌, ◌≤◌, ◌<◌, ◌&&◌, leb, length};
ghost use Rattle.permutations.specs.Pair.{image, Pair};
ghost use Rattle.import_rule.specs.Fixed.{by_q};
ghost use Rattle.import_rule.specs.Order.{leftmost};
ghost use Rattle.import_sides.specs.Inner.Work.{Top, left_end_num, left_end_den, closed_in, top_fits, sum_num, sum_den};
ghost use Rattle.import_sides.specs.Inner.Work.{top_point, moved_in, split_by, held_set, SideTaken, start_by};
ghost use Rattle.import_sides.specs.Inner.Work.{start_in, Ground, WalkLeaves};

use crate::cell::{number_at, point_at, put_cell};
use crate::places::{DONE, HELD, TODO};
use import_rule::turned;
use permutations::image;

// How one turn of the walk ends: whether it stops, and how many sides are done and to do.
#[derive(Clone, Copy)]
pub struct WalkTurn {
    pub stop: bool,
    pub d: usize,
    pub k: usize,
}

// How the walk ends.
#[derive(Clone, Copy)]
pub struct Outcome {
    pub stop: bool,
    pub d: usize,
}

// Whether a side with the point m is closed.
pub fn is_closed(s: &[u32], r: &[u32], w: &[u16], m: usize) -> bool
    requires { Pair s.now r.now × (m < length s.now) × (32768 ≤ length w.now) }
    ensures { result ≡ closed_in (image s.now) (by_q (image s.now) (image r.now))
        w.now m }
{
    let q = turned(s, r, m);
    if q == m {
        return true;
    }
    let x = image(s, m);
    w[HELD + x] != 0
}

// The numerator plus 10^9 of the left end of the first side to do.
fn left_num(w: &[u16], d: usize) -> u64
    requires { (d ≤ 1024) × (32768 ≤ length w.now) }
    ensures { (result ≡ left_end_num w.now d) × (result < 4294967296) }
{
    if d == 0 {
        return 999999999;
    }
    number_at(w, DONE + 5 * (d - 1))
}

// Its denominator.
fn left_den(w: &[u16], d: usize) -> u64
    requires { (d ≤ 1024) × (32768 ≤ length w.now) }
    ensures { (result ≡ left_end_den w.now d) × (result < 4294967296) }
{
    if d == 0 {
        return 0;
    }
    number_at(w, DONE + 5 * (d - 1) + 2)
}

// Whether the sums for a mediant keep to the limit: e is its numerator plus 2 * 10^9, and c its denominator.
pub fn within(e: u64, c: u64) -> bool
    ensures { result ≡ (leb 1000000000 e && leb e 3000000000 && leb c 1000000000) }
{
    if e < 1000000000 {
        return false;
    }
    if 3000000000 < e {
        return false;
    }
    c <= 1000000000
}

// The first side to do moves to those done.
pub fn move_top(w: &mut [u16], d: usize, k: usize)
    requires { (d ≤ 1024) × (1 ≤ k) × (k ≤ 1024) × (32768 ≤ length w.old) }
    ensures { w.new ≡ moved_in w.old d k }
{
    let top = TODO + 5 * (k - 1);
    let e = number_at(w, top);
    let c = number_at(w, top + 2);
    let m = point_at(w, top);
    put_cell(w, DONE + 5 * d, e, c, m);
}

// Notes x for the point m, 0 where it is no side's any more and 1 where it is one's, and that a and b are sides'
// points.
fn hold(w: &mut [u16], x: u16, m: usize, a: usize, b: usize)
    requires { (m < 4096) × (a < 4096) × (b < 4096) × (32768 ≤ length w.old) }
    ensures { w.new ≡ held_set w.old x m a b }
{
    w[HELD + m] = x;
    w[HELD + a] = 1;
    w[HELD + b] = 1;
}

// The first side to do is split at the vertex with numerator e - 10^9 and denominator c.
fn split_top(s: &[u32], r: &[u32], w: &mut [u16], k: usize, e: u64, c: u64)
    requires { Pair s.now r.now × (1 ≤ k) × (k ≤ 1024) × (top_point w.old k < length s.now)
        × (32768 ≤ length w.old) × (e < 4294967296) × (c < 4294967296) }
    ensures { w.new
        ≡ split_by (image s.now) (by_q (image s.now) (image r.now))
        w.old k e c }
{
    let top = TODO + 5 * (k - 1);
    let m = point_at(w, top);
    let p = turned(s, r, m);
    let q = turned(s, r, p);
    let a = image(s, p);
    let b = image(s, q);
    hold(w, 0, m, a, b);
    w[top + 4] = b as u16;
    put_cell(w, TODO + 5 * k, e, c, a);
}

// One turn of the walk, with d sides done and k to do.
fn take_side(s: &[u32], r: &[u32], w: &mut [u16], d: usize, k: usize) -> WalkTurn
    requires { Top s.now r.now w.old d k }
    ensures { SideTaken (image s.now) (by_q (image s.now) (image r.now))
        w.old d k w.new result.stop result.d result.k }
{
    let top = TODO + 5 * (k - 1);
    let m = point_at(w, top);
    if is_closed(s, r, w, m) {
        move_top(w, d, k);
        return WalkTurn {
            stop: false,
            d: d + 1,
            k: k - 1,
        };
    }
    let e = left_num(w, d) + number_at(w, top);
    let c = left_den(w, d) + number_at(w, top + 2);
    if within(e, c) {
        split_top(s, r, w, k, e - 1000000000, c);
        return WalkTurn {
            stop: false,
            d,
            k: k + 1,
        };
    }
    WalkTurn { stop: true, d, k }
}

// Three sides to do, the finite vertices of which have the numerators e2 - 10^9 and e1 - 10^9.
fn start_by(w: &mut [u16], e2: u64, e1: u64, p2: usize, p1: usize, p0: usize)
    requires { (p2 < 4096) × (p1 < 4096) × (p0 < 4096) × (32768 ≤ length w.old) × (e2 < 4294967296)
        × (e1 < 4294967296) }
    ensures { w.new ≡ start_by w.old e2 e1 p2 p1 p0 }
{
    hold(w, 1, p2, p1, p0);
    put_cell(w, TODO, 1000000001, 0, p0);
    put_cell(w, TODO + 5, e1, 1, p1);
    put_cell(w, TODO + 10, e2, 1, p2);
}

// The start: 0/1, 1/1 if Q doesn't fix 0, else -1/1, 0/1.
pub fn start(s: &[u32], r: &[u32], w: &mut [u16])
    requires { Pair s.now r.now × (32768 ≤ length w.old) }
    ensures { w.new
        ≡ start_in (image s.now) (by_q (image s.now) (image r.now)) w.old }
{
    let o = image(s, 0);
    let q = turned(s, r, 0);
    if q == 0 {
        let x = turned(s, r, o);
        let y = turned(s, r, x);
        let p2 = image(s, x);
        let p1 = image(s, y);
        start_by(w, 999999999, 1000000000, p2, p1, 0);
        return;
    }
    let y = turned(s, r, q);
    let p1 = image(s, q);
    let p0 = image(s, y);
    start_by(w, 1000000000, 1000000001, o, p1, p0);
}

// The walk, from a clear work space: whether it stops at a side that can't be split, and how many sides are done.
pub fn walk(s: &[u32], r: &[u32], w: &mut [u16]) -> Outcome
    requires { Ground s.now r.now w.old }
    ensures { WalkLeaves leftmost s.now r.now w.new result.stop result.d }
{
    start(s, r, w);
    let mut d: usize = 0;
    let mut k: usize = 3;
    // a `while`: its bound grows with each side that is split
    while 0 < k {
        let t = take_side(s, r, w, d, k);
        if t.stop {
            return Outcome { stop: true, d: t.d };
        }
        d = t.d;
        k = t.k;
    }
    Outcome { stop: false, d }
}
