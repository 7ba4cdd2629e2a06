// Drawings of a symbol: `draw_symbol` turns its sides into lines and semicircles, stores their numbers as floats and
// gives the box around them.
//
// One side is `draw`, and its box `box_of`; `join` gives boxes together. `drawing_check` looks at the symbol first, and
// `draw_in_room` at the result space. How near one division comes to the exact quotient, and the least and the greatest
// of some floats, are definitions: specs/Quotient.antt, specs/Extreme.antt.
#![tactic(auto)]

ghost use Rattle.std.specs.Prelude.{◌≡◌, ◌++◌, not, ◌+◌, ◌*◌, ◌^◌, ◌≤◌, ◌<◌, leb, length, drop, nat_abs};
ghost use Rattle.matrix.specs.Matrix.{nth};
ghost use Rattle.call.specs.Call.{stores_rows};
ghost use Rattle.call.specs.Inner.Fills.{Fills};
ghost use Rattle.symbol.specs.Table.{pairing_entries, pairing_of};
ghost use Rattle.pairing.specs.Generator.{kind_of};
ghost use Rattle.drawing.specs.Quotient.{quotient, float_of};
ghost use Rattle.drawing.specs.Extreme.{lesser, greater};
ghost use Rattle.drawing.specs.Drawn.{arc_of, drawn_of};
ghost use Rattle.drawing.specs.Bounding.{box_to};
ghost use Rattle.drawing.specs.Answer.{row_for, drawn_rows, check22, drawing_steps};
ghost use Rattle.drawing.specs.Inner.Ready.{Drawable, SmallSymbol, side_box, joint_box, put_four, drawing_check};
ghost use Rattle.drawing.specs.Inner.Ready.{drawn};

use call::refusal::Refusal;
use pairing::partner::kind_at;
use symbol::{Side, check};

// How a side is drawn in the upper half plane.
#[derive(Clone, Copy)]
pub enum Drawn {
    // Vertical, over this number.
    Line(f64),
    // A semicircle on the real axis: its centre, its radius.
    Arc(f64, f64),
}

// A box around drawn sides; its lower edge is on the real axis.
#[derive(Clone, Copy)]
pub struct BoundingBox {
    pub left: f64,
    pub right: f64,
    pub bottom: f64,
    pub top: f64,
}

// The float nearest to x / y: neither cast rounds, so that the division alone does.
fn divided(x: i64, y: i64) -> f64
    requires { (nat_abs x ≤ 2 ^ 53) × (nat_abs y ≤ 2 ^ 53) }
    ensures { result ≡ quotient x y }
{
    let numerator = x as f64;
    let denominator = y as f64;
    numerator / denominator
}

// The semicircle from a/b to c/d. Its diameter is c/d - a/b, which is 1 / (b d) as the two are neighbours.
fn arc_of(s: Side) -> Drawn
    requires { Drawable s }
    ensures { result ≡ arc_of s }
{
    let twice = 2 * (s.b * s.d);
    let centre = divided(s.a * s.d + s.c * s.b, twice);
    Drawn::Arc(centre, divided(1, twice))
}

// The side from a/b to c/d: over c/d where a/b is infinity, over a/b where c/d is, and a semicircle where neither is.
fn draw(s: Side) -> Drawn
    requires { Drawable s }
    ensures { result ≡ drawn_of s }
{
    if s.b == 0 {
        return Drawn::Line(divided(s.c, s.d));
    }
    if s.d == 0 {
        return Drawn::Line(divided(s.a, s.b));
    }
    arc_of(s)
}

// The library has no minimum and no maximum of floats; one function for both would be told the order at each call.

// b where it is below a, and a otherwise.
fn lesser(a: f64, b: f64) -> f64
    ensures { result ≡ lesser a b }
{
    if b < a { b } else { a }
}

// b where it is above a, and a otherwise.
fn greater(a: f64, b: f64) -> f64
    ensures { result ≡ greater a b }
{
    if a < b { b } else { a }
}

// The box around a single side. A line has no height here: it rises without end.
fn box_of(side: Drawn) -> BoundingBox
    ensures { result ≡ side_box side }
{
    match side {
        Drawn::Line(x) => BoundingBox {
            left: x,
            right: x,
            bottom: 0.0,
            top: 0.0,
        },
        Drawn::Arc(centre, radius) => BoundingBox {
            left: centre - radius,
            right: centre + radius,
            bottom: 0.0,
            top: radius,
        },
    }
}

// The smallest box around two, of which both have the same bottom.
fn join(a: BoundingBox, b: BoundingBox) -> BoundingBox
    ensures { result ≡ joint_box a b }
{
    BoundingBox {
        left: lesser(a.left, b.left),
        right: greater(a.right, b.right),
        bottom: a.bottom,
        top: greater(a.top, b.top),
    }
}

// The row of a side: which of the two it is, its numbers, its kind.
fn row_of(side: Drawn, kind: f64) -> [f64; 4]
    ensures { result ≡ row_for side kind }
{
    match side {
        Drawn::Line(x) => [0.0, x, 0.0, kind],
        Drawn::Arc(centre, radius) => [1.0, centre, radius, kind],
    }
}

// Writes the row i of out.
fn put_side(out: &mut [f64], i: usize, side: Drawn, kind: f64)
    requires { (i ≤ 1023) × (4 * i + 4 ≤ length out.old) }
    ensures { out.new ≡ put_four i (row_for side kind) out.old }
{
    // four stores: an array that is copied whole goes by way of memory
    let [form, first, second, last] = row_of(side, kind);
    out[4 * i] = form;
    out[4 * i + 1] = first;
    out[4 * i + 2] = second;
    out[4 * i + 3] = last;
}

// 1, 2 or 3, as side i is free, even or odd.
fn kind(v: usize, p: &[i64], i: usize) -> f64
    requires { (v ≤ 1023) × (i < length p.now) }
    ensures { result ≡ float_of (kind_of (pairing_of v (nth p.now i))) }
{
    kind_at(v, p, i) as f64
}

// The rows of all sides go to the front of out, and their boxes are joined. The first box is there from the start: with
// itself it stays as it is.
fn draw_sides(v: usize, t: &[i64], p: &[i64], out: &mut [f64]) -> BoundingBox
    requires { SmallSymbol v t.now × (p.now ≡ pairing_entries v t.now) × (4 * (v + 1) ≤ length out.old) }
    ensures value { result ≡ box_to v t.now (v + 1) }
    ensures out_after { out.new ≡ drawn_rows v t.now (v + 1) ++ drop (4 * (v + 1)) out.old }
{
    let mut bounds = box_of(draw(Side::at(v, t, 0)));
    for i in 0..v + 1 {
        let side = draw(Side::at(v, t, i));
        bounds = join(bounds, box_of(side));
        put_side(out, i, side, kind(v, p, i));
    }
    bounds
}

// The result space has room for one side in each whole four of its floats.
fn draw_in_room(v: usize, t: &[i64], out: &mut [f64]) -> Result<BoundingBox, Refusal>
    requires { SmallSymbol v t.now }
    ensures { Fills (stores_rows 4 (v + 1) (drawn_rows v t.now (v + 1)) out)
        (drawn (box_to v t.now (v + 1))) result }
{
    let sides = v + 1;
    if out.len() / 4 < sides {
        return Err(Refusal::TooShort(sides));
    }
    Ok(draw_sides(v, t, &t[2 * v..], out))
}

// Over 2^25 in size. Up to there 2 b d and a d + c b are at most 2^51.
fn too_large(x: i64) -> bool
    ensures { result ≡ not (leb (nat_abs x) 33554432) }
{
    x < -33554432 || 33554432 < x
}

// Check 22, from the first vertex entry on.
fn check_entries(v: usize, t: &[i64]) -> Result<(), Refusal>
    requires { (v ≤ 1023) × (2 * v ≤ length t.now) }
    ensures { result ≡ check22 v t.now }
{
    for i in 0..2 * v {
        if too_large(t[i]) {
            return Err(Refusal::TooLargeToDraw(i));
        }
    }
    Ok(())
}

// Whether t has a symbol that can be drawn.
fn drawing_check(v: usize, t: &[i64]) -> Result<(), Refusal>
    ensures { result ≡ drawing_check v t.now }
{
    check(v, t)?;
    check_entries(v, t)
}

// Draws the symbol in t: a row of four floats in out for each side, in their order, and the box around them; or the
// first refusal.
pub fn draw_symbol(v: usize, t: &[i64], out: &mut [f64]) -> Result<BoundingBox, Refusal>
    ensures { Fills (drawing_steps v t.now out) (drawn (box_to v t.now (v + 1))) result }
{
    drawing_check(v, t)?;
    draw_in_room(v, t, out)
}
