// The finished symbol, written from the sides done in the work space to the front of the result space.
ghost use Rattle.std.specs.Prelude.{◌≡◌, [], ◌∷◌, ◌++◌, ◌+◌, ◌-◌, ◌*◌, ◌≤◌, ◌<◌, length, get_or, set, drop};
ghost use Rattle.std.specs.Prelude.{pos, negsuc, ◌-ℤ◌};
ghost use Rattle.permutations.specs.Pair.{image};
ghost use Rattle.import_rule.specs.Fixed.{by_q};
ghost use Rattle.import_rule.specs.Rule.{least};
ghost use Rattle.import_sides.specs.Inner.Work.{LABEL, DONE, Done, cell_place, end_at, point_at};
ghost use Rattle.import_symbol.specs.Inner.Writing.{vertices_to, Paired, paired, table_written, SideToWrite};

use import_rule::turned;
use import_sides::cell::{long, number_at, point_at};
use import_sides::places::{DONE, LABEL};
use permutations::image;

// Puts x at j.
fn store_entry(out: &mut [i64], j: usize, x: i64)
    requires { j < length out.old }
    ensures { out.new ≡ set out.old j x }
{
    out[j] = x;
}

// A number of 32 bits among the signed ones.
fn signed(x: u64) -> i64
    requires { x < 4294967296 }
    ensures { result ≡ pos x }
{
    x as i64
}

// The numerator that e stands for.
fn numerator(e: u64) -> i64
    requires { e < 4294967296 }
    ensures { result ≡ (pos e -ℤ pos 1000000000) }
{
    let x = signed(e);
    x - 1000000000
}

// Writes the table 0, 1, x, -3.
pub(crate) fn write_four(out: &mut [i64], x: i64)
    requires { 4 ≤ length out.old }
    ensures { out.new ≡ ((pos 0 ∷ pos 1 ∷ x ∷ negsuc 2 ∷ []) ++ drop 4 out.old) }
{
    store_entry(out, 0, 0);
    store_entry(out, 1, 1);
    store_entry(out, 2, x);
    store_entry(out, 3, -3);
}

// Writes vertex i.
fn write_vertex(w: &[u16], i: usize, out: &mut [i64])
    requires { (i ≤ 1024) × (32768 ≤ length w.now) × (2 * i + 2 ≤ length out.old) }
    ensures { out.new
        ≡ set (set out.old (2 * i) (end_at w.now (cell_place DONE i)).num) (2 * i + 1)
        (pos (end_at w.now (cell_place DONE i)).den) }
{
    let at = DONE + 5 * i;
    let e = number_at(w, at);
    let c = number_at(w, at + 2);
    let a = numerator(e);
    let b = signed(c);
    store_entry(out, 2 * i, a);
    store_entry(out, 2 * i + 1, b);
}

// Writes the first v vertices.
fn write_vertices(w: &[u16], v: usize, out: &mut [i64])
    requires { (v ≤ 1024) × (32768 ≤ length w.now) × (2 * v ≤ length out.old) }
    ensures { out.new ≡ (vertices_to w.now v ++ drop (2 * v) out.old) }
{
    for i in 0..v {
        write_vertex(w, i, out);
    }
}

// The smaller of two points.
fn least(x: usize, y: usize) -> usize
    ensures { result ≡ least x y }
{
    if x < y {
        return x;
    }
    y
}

// What stands for the label l.
fn label_at(w: &[u16], l: usize) -> u64
    requires { (l < 4096) × (32768 ≤ length w.now) }
    ensures { (result ≡ get_or w.now (LABEL + l) 0) × (result < 65536) }
{
    long(w[LABEL + l])
}

// Writes the pairing of side i at j, where c labels have numbers; returns how many have then.
fn write_pairing(
    s: &[u32],
    r: &[u32],
    w: &mut [u16],
    i: usize,
    j: usize,
    c: usize,
    out: &mut [i64],
) -> usize
    requires { SideToWrite s.now r.now w.old out.old i j c }
    ensures { Paired (image s.now) (by_q (image s.now) (image r.now))
        w.old out.old (point_at w.old (cell_place DONE i)) j c w.new
        out.new result }
{
    let m = point_at(w, DONE + 5 * i);
    let x = image(s, m);
    if x == m {
        store_entry(out, j, -2);
        return c;
    }
    let q = turned(s, r, m);
    if q == m {
        store_entry(out, j, -3);
        return c;
    }
    let l = least(m, x);
    let k = label_at(w, l);
    if k == 0 {
        let n = signed((c + 1) as u64);
        store_entry(out, j, n);
        w[LABEL + l] = (c + 1) as u16;
        return c + 1;
    }
    let n = signed(k);
    store_entry(out, j, n);
    c
}

// Writes the pairings of the d sides done behind the vertices.
fn write_pairings(s: &[u32], r: &[u32], w: &mut [u16], d: usize, out: &mut [i64])
    requires { Done s.now r.now w.old d × (3 * (d - 1) + 1 ≤ length out.old) }
    ensures { out.new
        ≡ paired (image s.now) (by_q (image s.now) (image r.now)) w.old d
        out.old }
{
    let v = d - 1;
    let mut c: usize = 0;
    for i in 0..d {
        c = write_pairing(s, r, w, i, 2 * v + i, c, out);
    }
}

// Writes the symbol's table.
pub(crate) fn write_table(s: &[u32], r: &[u32], w: &mut [u16], d: usize, out: &mut [i64])
    requires { Done s.now r.now w.old d × (3 * (d - 1) + 1 ≤ length out.old) }
    ensures { out.new
        ≡ table_written (image s.now) (by_q (image s.now) (image r.now))
        w.old d out.old }
{
    write_vertices(w, d - 1, out);
    write_pairings(s, r, w, d, out);
}
