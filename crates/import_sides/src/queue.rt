// The sides of the symbol of an accepted pair by the wide rule of the crate `import_rule`: the side that has been open
// longest is split. The sides stand in cells that are linked from right to left, a queue has the points of those that
// came and a table the cell of each point, so that a split costs a constant number of operations
// (specs/Inner/Cells.antt).
ghost use Rattle.std.specs.Prelude.{◌≡◌, ◌+◌, ◌-◌, ◌*◌, ◌≤◌, ◌<◌, length, get_or, set};
ghost use Rattle.permutations.specs.Pair.{image};
ghost use Rattle.import_rule.specs.Fixed.{by_q};
ghost use Rattle.import_rule.specs.Order.{longest_open};
ghost use Rattle.import_sides.specs.Inner.Work.{Ground, WalkLeaves, cell_place, TODO};
ghost use Rattle.import_sides.specs.Inner.Cells.{Chain, Rowed, low_num, low_den, held_by, linked, queued};
ghost use Rattle.import_sides.specs.Inner.Cells.{split_cell, begun};
ghost use Rattle.import_sides.specs.Inner.Cells.{AtCell, Turn, Three, Counted, Opened, Turned, Laid};

use crate::cell::{number_at, point_at, put_cell, short};
use crate::places::{HELD, TODO};
use crate::walk::{Outcome, is_closed, move_top, start, within};
use import_rule::turned;
use permutations::image;

// The places of the tables in the work space that only the wide rule has.
pub const LINK: usize = 26624;

pub const QUEUE: usize = 28672;

// How one turn ends: whether it stops, and how many sides there are; where it stops, the number of the side that can't
// be split.
#[derive(Clone, Copy)]
pub struct QueueTurn {
    pub stop: bool,
    pub k: usize,
}

// The number that stands at j.
fn entry(w: &[u16], j: usize) -> usize
    requires { j < length w.now }
    ensures { (result ≡ get_or w.now j 0) × (result < 65536) }
{
    short(w[j])
}

// Puts x at j.
fn store(w: &mut [u16], j: usize, x: usize)
    requires { (j < length w.old) × (x < 65536) }
    ensures { w.new ≡ set w.old j x }
{
    w[j] = x as u16;
}

// Puts x at i, y at j and z at k.
fn put_three(w: &mut [u16], i: usize, x: usize, j: usize, y: usize, k: usize, z: usize)
    requires { (i < length w.old) × (j < length w.old) × (k < length w.old) × (x < 65536) × (y < 65536)
        × (z < 65536) }
    ensures { w.new ≡ set (set (set w.old i x) j y) k z }
{
    store(w, i, x);
    store(w, j, y);
    store(w, k, z);
}

// The numerator plus 10^9 of the right end of the cell that l links.
fn low_num(w: &[u16], l: usize) -> u64
    requires { (l ≤ 1024) × (32768 ≤ length w.now) }
    ensures { (result ≡ low_num w.now l) × (result < 4294967296) }
{
    if l == 0 {
        return 999999999;
    }
    number_at(w, TODO + 5 * (l - 1))
}

// Its denominator.
fn low_den(w: &[u16], l: usize) -> u64
    requires { (l ≤ 1024) × (32768 ≤ length w.now) }
    ensures { (result ≡ low_den w.now l) × (result < 4294967296) }
{
    if l == 0 {
        return 0;
    }
    number_at(w, TODO + 5 * (l - 1) + 2)
}

// The point m is no side's any more, a is that of the cell before x, and b that of the cell before y.
fn hold(w: &mut [u16], m: usize, a: usize, b: usize, x: usize, y: usize)
    requires { (m < 4096) × (a < 4096) × (b < 4096) × (x < 65536) × (y < 65536) × (32768 ≤ length w.old) }
    ensures { w.new ≡ held_by w.old m a b x y }
{
    put_three(w, HELD + m, 0, HELD + a, x, HELD + b, y);
}

// The cell k comes to stand between the cell c and the cell that l links.
fn join(w: &mut [u16], c: usize, k: usize, l: usize)
    requires { (c < 1024) × (k < 1024) × (l < 65536) × (32768 ≤ length w.old) }
    ensures { w.new ≡ linked w.old c k l }
{
    store(w, LINK + k, l);
    store(w, LINK + c, k + 1);
}

// The points a and b come to the end t of the queue.
fn enqueue(w: &mut [u16], t: usize, a: usize, b: usize)
    requires { (t < 2048) × (a < 65536) × (b < 65536) × (32768 ≤ length w.old) }
    ensures { w.new ≡ queued w.old t a b }
{
    store(w, QUEUE + t, a);
    store(w, QUEUE + t + 1, b);
}

// The side in the cell c is split at the vertex with numerator e - 10^9 and denominator d, where there are k sides.
fn split_cell(s: &[u32], r: &[u32], w: &mut [u16], c: usize, k: usize, e: u64, d: u64)
    requires { AtCell s.now r.now w.old c k × (e < 4294967296) × (d < 4294967296) }
    ensures { w.new
        ≡ split_cell (image s.now) (by_q (image s.now) (image r.now))
        w.old c k e d }
{
    let at = TODO + 5 * c;
    let m = point_at(w, at);
    let p = turned(s, r, m);
    let q = turned(s, r, p);
    let a = image(s, p);
    let b = image(s, q);
    let l = entry(w, LINK + c);
    hold(w, m, a, b, k + 1, c + 1);
    store(w, at + 4, b);
    put_cell(w, TODO + 5 * k, e, d, a);
    join(w, c, k, l);
    enqueue(w, 2 * k - 3, a, b);
}

// How many cells are linked from l on.
fn count(w: &[u16], l: usize) -> usize
    requires { Chain w.now l × (32768 ≤ length w.now) }
    ensures { Counted w.now l result }
{
    let mut i: usize = 0;
    let mut at = l;
    // a `while`: it goes along the links of a chain
    while at != 0 {
        let c = at - 1;
        at = entry(w, LINK + c);
        i += 1;
    }
    i
}

// The open side in the cell c is split, where there are k sides and its vertex keeps to the limit.
fn split_open(s: &[u32], r: &[u32], w: &mut [u16], c: usize, k: usize) -> QueueTurn
    requires { AtCell s.now r.now w.old c k }
    ensures { Opened (image s.now) (by_q (image s.now) (image r.now))
        w.old c k w.new result.stop result.k }
{
    let l = entry(w, LINK + c);
    let e = low_num(w, l) + number_at(w, TODO + 5 * c);
    let d = low_den(w, l) + number_at(w, TODO + 5 * c + 2);
    if within(e, d) {
        split_cell(s, r, w, c, k, e - 1000000000, d);
        return QueueTurn {
            stop: false,
            k: k + 1,
        };
    }
    let i = count(w, l);
    QueueTurn { stop: true, k: i }
}

// One turn: the first of the queue, at its place h, where there are k sides.
fn take_next_side(s: &[u32], r: &[u32], w: &mut [u16], h: usize, k: usize) -> QueueTurn
    requires { Turn s.now r.now w.old h k }
    ensures { Turned (image s.now) (by_q (image s.now) (image r.now))
        w.old h k w.new result.stop result.k }
{
    let m = entry(w, QUEUE + h);
    if is_closed(s, r, w, m) {
        return QueueTurn { stop: false, k };
    }
    let x = entry(w, HELD + m);
    split_open(s, r, w, x - 1, k)
}

// The start sides, which stand in the cells 2, 1 and 0, are held, linked and queued.
fn begin(w: &mut [u16])
    requires { Three w.old }
    ensures { w.new ≡ begun w.old }
{
    let p2 = point_at(w, TODO + 10);
    let p1 = point_at(w, TODO + 5);
    let p0 = point_at(w, TODO);
    put_three(w, HELD + p2, 3, HELD + p1, 2, HELD + p0, 1);
    put_three(w, LINK, 2, LINK + 1, 3, LINK + 2, 0);
    put_three(w, QUEUE, p2, QUEUE + 1, p1, QUEUE + 2, p0);
}

// Lays the k sides out, from the right.
fn lay_out(w: &mut [u16], k: usize)
    requires { Rowed w.old k × (k ≤ 1024) × (32768 ≤ length w.old) }
    ensures { Laid w.old k w.new }
{
    let mut i = k;
    let mut at: usize = 1;
    while 0 < i {
        i -= 1;
        move_top(w, i, at);
        at = entry(w, LINK + (at - 1));
    }
}

// The wide rule, from a clear work space: whether it stops at a side that can't be split, and how many sides there are.
pub fn walk(s: &[u32], r: &[u32], w: &mut [u16]) -> Outcome
    requires { Ground s.now r.now w.old }
    ensures { WalkLeaves longest_open s.now r.now w.new result.stop result.d }
{
    start(s, r, w);
    begin(w);
    let mut h: usize = 0;
    let mut k: usize = 3;
    // a `while`: its bound grows with each side that is split
    while h + 3 < 2 * k {
        let t = take_next_side(s, r, w, h, k);
        if t.stop {
            return Outcome { stop: true, d: t.k };
        }
        k = t.k;
        h += 1;
    }
    lay_out(w, k);
    Outcome { stop: false, d: k }
}
