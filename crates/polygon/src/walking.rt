// The steps of the walk, the letters that they write, and where it starts.
ghost use Rattle.std.specs.Prelude.{◌≡◌, ◌≤◌, pos, neg_ℤ};
ghost use Rattle.basics.specs.Choice.{pick};
ghost use Rattle.symbol.specs.Symbol.{IsSymbol};
ghost use Rattle.matrix.specs.Words.{S, Q, P};
ghost use Rattle.polygon.specs.Step.{Real, step_s, turn_q, written, turned, start_of};
ghost use Rattle.polygon.specs.Cut.{under_zero};
ghost use Rattle.polygon.specs.Inner.Tables.{PolygonTables, letters_of};

use super::reading::{beyond, number_of, pairing, partner_of};
use super::turning::next_corner;
use symbol::{Pairing, is_zero};

// Q at p: the next corner of the triangle, or p itself where p is an outer face.
pub fn turn_q(v: usize, p: usize) -> usize
    requires { (1 ≤ v) × (v ≤ 1023) }
    ensures { result ≡ turn_q v p }
{
    if 3 * (v - 1) <= p {
        return p;
    }
    let c = p % 3;
    p - c + next_corner(c, false)
}

// S at the real position p.
pub fn step_s(t: &[i64], v: usize, w: &[u16], p: usize) -> usize
    requires { PolygonTables t.now v w.now × Real v t.now p }
    ensures { result ≡ step_s v t.now p }
{
    let q = beyond(w, p);
    let b = 3 * (v - 1);
    if q < b {
        return q;
    }
    let i = q - b;
    match pairing(t, v, i) {
        Pairing::Even => p,
        Pairing::Odd => q,
        Pairing::Free(_) => {
            let k = partner_of(w, i);
            beyond(w, b + k)
        }
        Pairing::Bad => p,
    }
}

// The letter j, or -j where it is to be turned round.
fn as_letter(j: usize, inverse: bool) -> i16
    requires { j ≤ 1024 }
    ensures { result ≡ pick inverse (neg_ℤ (pos j)) (pos j) }
{
    let x = j as i16;
    if inverse { -x } else { x }
}

// The letter that S writes at the real position p, 0 where it writes none.
pub fn letter_s(t: &[i64], v: usize, w: &[u16], p: usize) -> i16
    requires { PolygonTables t.now v w.now × Real v t.now p }
    ensures { letters_of result ≡ written v t.now S p }
{
    let q = beyond(w, p);
    let b = 3 * (v - 1);
    if q < b {
        return 0;
    }
    let i = q - b;
    let j = number_of(w, i);
    match pairing(t, v, i) {
        Pairing::Even => as_letter(j, false),
        Pairing::Odd => 0,
        Pairing::Free(_) => {
            let k = partner_of(w, i);
            as_letter(j, i < k)
        }
        Pairing::Bad => 0,
    }
}

// The letter that Q, or Q⁻¹ where `inverse` holds, writes at the real position p, 0 where it writes none.
pub fn letter_q(t: &[i64], v: usize, w: &[u16], p: usize, inverse: bool) -> i16
    requires { PolygonTables t.now v w.now × Real v t.now p }
    ensures { letters_of result ≡ written v t.now (pick inverse P Q) p }
{
    let b = 3 * (v - 1);
    if p < b {
        return 0;
    }
    let j = number_of(w, p - b);
    as_letter(j, inverse)
}

// Whether the last side starts at 0/1 and is not odd, so that the walk starts turned round.
pub fn is_turned(t: &[i64], v: usize) -> bool
    requires { IsSymbol v t.now }
    ensures { result ≡ turned v t.now }
{
    is_zero(t, v - 1) && !matches!(pairing(t, v, v), Pairing::Odd)
}

// Where the walk starts, from the position under the chord to 0/1.
pub(crate) fn start_position(t: &[i64], v: usize, w: &[u16], under: usize) -> usize
    requires { PolygonTables t.now v w.now × (under ≡ under_zero v t.now) }
    ensures { result ≡ start_of v t.now }
{
    if is_turned(t, v) {
        return under;
    }
    beyond(w, under)
}
