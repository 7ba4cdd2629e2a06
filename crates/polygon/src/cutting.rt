// The cut of the polygon into Farey triangles: one scan over the vertices with a stack, by their denominators alone.
ghost use Rattle.std.specs.Prelude.{◌≡◌, ℕ, ◌+◌, ◌*◌, ◌≤◌, ◌<◌, eqb, length, get_or};
ghost use Rattle.basics.specs.Choice.{pick};
ghost use Rattle.basics.specs.Count.{first};
ghost use Rattle.symbol.specs.Check.{is_zero};
ghost use Rattle.symbol.specs.Symbol.{IsSymbol};
ghost use Rattle.polygon.specs.Cut.{places, below, handle};
ghost use Rattle.polygon.specs.Inner.Space.{FLIP, joined};
ghost use Rattle.polygon.specs.Inner.Scanning.{cells_in, ready_of, Cells, ScanRoom, Settled, Cleared, Scanned};
ghost use Rattle.polygon.specs.Inner.Scanning.{CutLeft};

use super::reading::denominator;
use super::{FLIP, HANDLE, STACK};
use symbol::is_zero;

// How many cells the scan has on its stack, and how many triangles it has cut.
#[derive(Clone, Copy)]
pub struct Progress {
    pub n: usize,
    pub m: usize,
}

// The cells that the scan leaves on its stack, and the position that lay under the chord to the vertex asked for.
#[derive(Clone, Copy)]
pub struct Notes {
    pub n: usize,
    pub under: usize,
}

// A cell of the stack: a vertex, and the position under the chord to it.
#[derive(Clone, Copy)]
struct Cell {
    vertex: usize,
    handle: usize,
}

// The top one of n cells; where there is none, -1/0 with the handle 0.
fn top_cell(w: &[u16], n: usize) -> Cell
    requires { (n ≤ 1024) × (32768 ≤ length w.now) }
    ensures vertex { result.vertex ≡ below (cells_in w.now n) }
    ensures handle { result.handle ≡ handle (cells_in w.now n) }
{
    if n == 0 {
        return Cell {
            vertex: 0,
            handle: 0,
        };
    }
    let top = n - 1;
    Cell {
        vertex: call::workspace::index(w[STACK + top]),
        handle: call::workspace::index(w[HANDLE + top]),
    }
}

// Whether the vertex on top of the stack makes a triangle with the one below it and y.
fn ready(t: &[i64], v: usize, w: &[u16], y: usize, n: usize) -> bool
    requires { IsSymbol v t.now × Cells v w.now n × (y ≤ v) × (n ≤ 1024) × (32768 ≤ length w.now) }
    ensures { result ≡ ready_of t.now (cells_in w.now n) y }
{
    if n == 0 {
        return false;
    }
    let a = top_cell(w, n).vertex;
    let b = top_cell(w, n - 1).vertex;
    let da = denominator(t, v, a);
    let db = denominator(t, v, b);
    let dy = denominator(t, v, y);
    da == db + dy
}

// Beyond the edge at p lies q, and beyond that at q lies p.
fn link(w: &mut [u16], p: usize, q: usize)
    requires { (p < 4096) × (q < 4096) × (32768 ≤ length w.old) }
    ensures { w.new ≡ joined w.old p q }
{
    w[FLIP + p] = q as u16;
    w[FLIP + q] = p as u16;
}

// The vertex i + 1 of the scan: every triangle that it closes is cut off, and then it is pushed.
fn settle(t: &[i64], v: usize, w: &mut [u16], i: usize, before: Progress) -> Progress
    requires { ScanRoom t.now v w.old i before.n before.m }
    ensures { Settled t.now v w.old i before.n before.m w.new result.n result.m }
{
    let mut n = before.n;
    let mut m = before.m;
    let mut h = 3 * (v - 1) + i;
    let y = i + 1;
    // a `while`: how many triangles y closes is known only when they are cut off
    while ready(t, v, w, y, n) {
        let top = n - 1;
        let hl = call::workspace::index(w[HANDLE + top]);
        link(w, 3 * m + 1, hl);
        link(w, 3 * m + 2, h);
        h = 3 * m;
        m += 1;
        n = top;
    }
    w[STACK + n] = y as u16;
    w[HANDLE + n] = h as u16;
    Progress { n: n + 1, m }
}

// The table of other sides is cleared, so that nothing that stood there is read.
fn clear_flips(v: usize, w: &mut [u16])
    requires { (v ≤ 1023) × (32768 ≤ length w.old) }
    ensures { Cleared v w.old w.new }
{
    w[FLIP..FLIP + 4 * v + 1].fill(0);
}

// The first vertex that is 0/1, or v where there is none.
fn zero_vertex(t: &[i64], v: usize) -> usize
    requires { (v ≤ 1023) × (2 * v ≤ length t.now) }
    ensures { result ≡ first (is_zero t.now) v }
{
    for i in 0..v {
        if is_zero(t, i) {
            return i;
        }
    }
    v
}

// The handle on top of the stack of n cells where i is z, else what was noted before.
fn noted(w: &[u16], n: usize, i: usize, z: usize, under: usize) -> usize
    requires { (n ≤ 1024) × (32768 ≤ length w.now) }
    ensures { result ≡ pick (eqb i z) (handle (cells_in w.now n)) under }
{
    if i == z { top_cell(w, n).handle } else { under }
}

// The scan over all vertices, with a note of the handle of vertex z + 1 when it has been pushed.
fn scan_vertices(t: &[i64], v: usize, z: usize, w: &mut [u16]) -> Notes
    requires { IsSymbol v t.now × (32768 ≤ length w.old)
        × ((k : ℕ) → k < places v → get_or w.old (FLIP + k) 0 ≡ 0) }
    ensures { Scanned t.now v z w.old w.new result.n result.under }
{
    let mut progress = Progress { n: 0, m: 0 };
    let mut under = 0;
    for i in 0..v {
        progress = settle(t, v, w, i, progress);
        under = noted(w, progress.n, i, z, under);
    }
    Notes {
        n: progress.n,
        under,
    }
}

// The cut of the polygon: the table of other sides is filled, and the position under the chord from -1/0 to 0/1 is
// returned.
pub(crate) fn cut(t: &[i64], v: usize, w: &mut [u16]) -> usize
    requires { IsSymbol v t.now × (32768 ≤ length w.old) }
    ensures { CutLeft t.now v w.old w.new result }
{
    let z = zero_vertex(t, v);
    clear_flips(v, w);
    let r = scan_vertices(t, v, z, w);
    let h = top_cell(w, r.n).handle;
    link(w, 3 * (v - 1) + v, h);
    r.under
}
