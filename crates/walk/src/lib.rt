// The walk of a matrix over the positions of a symbol, letter by letter, with the rest of the matrix as four naturals.
//
// A letter is stored where its number is below a limit, and counted everywhere. A query makes the walk where its word
// is known to fit. specs/Inner/Way.antt has the state and what each part leaves.
#![tactic(auto)]

ghost use Rattle.std.specs.Prelude.{◌≡◌, true, false, ◌+◌, ◌-◌, ◌*◌, ◌^◌, ◌≤◌, ◌<◌, length, pos, nat_abs, ◌*ℤ◌};
ghost use Rattle.matrix.specs.Matrix.{of_list, det};
ghost use Rattle.basics.specs.Choice.{pick};
ghost use Rattle.matrix.specs.Words.{S, Q, P};
ghost use Rattle.matrix.specs.Euclid.{total, swap, positive, agree, sizes};
ghost use Rattle.matrix.specs.Bounds.{Small};
ghost use Rattle.coset.specs.Positions.{Real, letters_of, entry_sign, column_sign};
ghost use Rattle.walk.specs.Inner.Way.{form_of, proper_of, turn_letter, turn_form, stored, Setting, WayStepped};
ghost use Rattle.walk.specs.Inner.Way.{RowTakes, Taken, LetterPut, Sound, Begun, Going, Ended, Walked};

use coset::steps::{block_end, letter, letter_q, next, sign_of_s, times, turn};

// What is left of the matrix, (p q; r s) in size, the position, how many letters are written so far, and the sign so
// far, plus for true.
#[derive(Clone, Copy)]
pub struct Way {
    pub p: u64,
    pub q: u64,
    pub r: u64,
    pub s: u64,
    pub at: usize,
    pub count: usize,
    pub sign: bool,
}

// One letter more, none for 0: it is stored where its number is below the limit. Returns how many letters there are
// then.
fn put(out: &mut [i16], start: usize, limit: usize, count: usize, letter: i16) -> usize
    requires { (limit ≤ length out.old - start) × (count ≤ 2 ^ 63 + 1) }
    ensures { (result ≡ count + length (letters_of letter))
        × (out.new ≡ stored start limit count (letters_of letter) out.old) }
{
    if letter == 0 {
        return count;
    }
    if count < limit {
        out[start + count] = letter;
        return count + 1;
    }
    count + 1
}

// The letter that S writes at p.
fn put_s(
    t: &[i64],
    v: usize,
    w: &[u16],
    p: usize,
    out: &mut [i16],
    start: usize,
    limit: usize,
    count: usize,
) -> usize
    requires { Setting t.now v w.now out.old start limit × Real v t.now p × (count ≤ 2 ^ 63 + 1) }
    ensures { LetterPut v t.now start limit S p count out.old result out.new }
{
    let z = letter(t, v, w, p);
    put(out, start, limit, count, z)
}

// The letter that Q writes there, or Q⁻¹ where `inverse` holds.
fn put_q(
    t: &[i64],
    v: usize,
    w: &[u16],
    p: usize,
    inverse: bool,
    out: &mut [i16],
    start: usize,
    limit: usize,
    count: usize,
) -> usize
    requires { Setting t.now v w.now out.old start limit × Real v t.now p × (count ≤ 2 ^ 63 + 1) }
    ensures { LetterPut v t.now start limit (pick inverse P Q) p count out.old result
        out.new }
{
    let z = letter_q(t, v, w, p, inverse);
    put(out, start, limit, count, z)
}

// The lower row taken k times from the upper one, or the upper from the lower where `inverse` holds.
pub fn take(way: Way, k: u64, inverse: bool) -> Way
    requires { RowTakes inverse k (form_of way) }
    ensures { Taken inverse k way result }
{
    if inverse {
        return Way {
            r: way.r - k * way.p,
            s: way.s - k * way.q,
            ..way
        };
    }
    Way {
        p: way.p - k * way.r,
        q: way.q - k * way.s,
        ..way
    }
}

// S: the rows change places.
fn cross(
    t: &[i64],
    v: usize,
    w: &[u16],
    way: Way,
    out: &mut [i16],
    start: usize,
    limit: usize,
) -> Way
    requires { Setting t.now v w.now out.old start limit × Real v t.now way.at
        × (way.count ≤ 2 ^ 63 + 1) }
    ensures { WayStepped v t.now start limit S way out.old result out.new
        × (form_of result ≡ swap (form_of way)) }
{
    let at = way.at;
    let count = put_s(t, v, w, at, out, start, limit, way.count);
    let to = next(t, v, w, at);
    let sign = times(way.sign, sign_of_s(t, v, w, at));
    Way {
        p: way.r,
        q: way.s,
        r: way.p,
        s: way.q,
        at: to,
        count,
        sign: !sign,
    }
}

// A power of Q: the smaller row is taken from the larger one.
fn power(
    t: &[i64],
    v: usize,
    w: &[u16],
    way: Way,
    out: &mut [i16],
    start: usize,
    limit: usize,
) -> Way
    requires { Setting t.now v w.now out.old start limit × Sound v t.now (2 ^ 63 + 1) way
        × (proper_of (form_of way) ≡ true) }
    ensures { WayStepped v t.now start limit (turn_letter (form_of way)) way out.old result
        out.new × (form_of result ≡ turn_form (form_of way)) }
{
    let at = way.at;
    let inverse = way.r + way.s < way.p + way.q;
    let count = put_q(t, v, w, at, inverse, out, start, limit, way.count);
    let to = turn(v, at, inverse);
    let sign = times(way.sign, !inverse);
    let turned = Way {
        p: way.r,
        q: way.s,
        r: way.p,
        s: way.q,
        at: to,
        count,
        sign,
    };
    take(turned, 1, inverse)
}

// Whether more than S is left.
pub fn is_proper(way: Way) -> bool
    requires { total (form_of way) ≤ 2 ^ 62 }
    ensures { result ≡ proper_of (form_of way) }
{
    way.q + way.r != 0 && way.p + way.s != 0
}

// S and a power of Q: the rows change places and the smaller one is taken from the larger, so each row stays where it
// is; the tables lead over both at once. A turn changes nothing of what it writes, so its letter is read where it has
// led to. In an alternating word S and Q⁻¹ add a minus each.
fn block(
    t: &[i64],
    v: usize,
    w: &[u16],
    way: Way,
    out: &mut [i16],
    start: usize,
    limit: usize,
) -> Way
    requires { Setting t.now v w.now out.old start limit × Sound v t.now (2 ^ 63) way
        × (proper_of (form_of way) ≡ true) }
    ensures { Going v t.now start limit way out.old result out.new
        × (total (form_of result) < total (form_of way)) × (length out.new ≡ length out.old) }
{
    let at = way.at;
    let inverse = way.p + way.q < way.r + way.s;
    let to = block_end(t, v, w, at, inverse);
    let count = put_s(t, v, w, at, out, start, limit, way.count);
    let more = put_q(t, v, w, to, inverse, out, start, limit, count);
    let crossed = times(way.sign, sign_of_s(t, v, w, at));
    let sign = times(crossed, inverse);
    let ahead = Way {
        at: to,
        count: more,
        sign,
        ..way
    };
    take(ahead, 1, inverse)
}

// The last S, if there is one.
pub fn finish(
    t: &[i64],
    v: usize,
    w: &[u16],
    way: Way,
    out: &mut [i16],
    start: usize,
    limit: usize,
) -> Way
    requires { Setting t.now v w.now out.old start limit × Sound v t.now (2 ^ 63) way
        × (proper_of (form_of way) ≡ false) }
    ensures { Ended v t.now start limit way out.old result out.new }
{
    if way.q + way.r == 0 {
        return way;
    }
    cross(t, v, w, way, out, start, limit)
}

// Whether x and y are both above 0 or both below.
fn same_sign(x: i64, y: i64) -> bool
    ensures { result ≡ positive (x *ℤ y) }
{
    (0 < x && 0 < y) || (x < 0 && y < 0)
}

// Whether the word of m begins with a power of Q.
fn rows_agree(m: [i64; 4]) -> bool
    ensures { result ≡ agree (of_list m) }
{
    same_sign(m[0], m[2]) || same_sign(m[1], m[3])
}

// The sign of x, and s where x is 0.
fn sign_of_entry(x: i64, s: bool) -> bool
    ensures { result ≡ entry_sign x s }
{
    0 < x || (x == 0 && s)
}

// The sign of the first column of m.
fn sign_of_column(m: [i64; 4]) -> bool
    ensures { result ≡ column_sign (of_list m) }
{
    let below = times(rows_agree(m), 0 < m[2]);
    sign_of_entry(m[0], below)
}

// The state before the first letter.
fn whole(m: [i64; 4], home: usize) -> Way
    requires { Small (2 ^ 60) (of_list m) }
    ensures { (form_of result ≡ sizes (of_list m)) × (result.at ≡ home) × (result.count ≡ 0)
        × (result.sign ≡ column_sign (of_list m)) }
{
    Way {
        p: m[0].unsigned_abs(),
        q: m[1].unsigned_abs(),
        r: m[2].unsigned_abs(),
        s: m[3].unsigned_abs(),
        at: home,
        count: 0,
        sign: sign_of_column(m),
    }
}

// The first power of Q, if the word begins with one.
pub fn begin(
    t: &[i64],
    v: usize,
    w: &[u16],
    m: [i64; 4],
    home: usize,
    out: &mut [i16],
    start: usize,
    limit: usize,
) -> Way
    requires { Setting t.now v w.now out.old start limit × Real v t.now home × (det (of_list m) ≡ pos 1)
        × Small (2 ^ 60) (of_list m) }
    ensures { Begun v t.now start limit (of_list m) home out.old result out.new
        × (length out.new ≡ length out.old) }
{
    let way = whole(m, home);
    if rows_agree(m) {
        return power(t, v, w, way, out, start, limit);
    }
    way
}

// The walk that follows m from home: where it ends, how many letters it writes, and the sign of m against them. The
// first `limit` of them are stored in `out`, from the place `start` on.
pub fn walk(
    t: &[i64],
    v: usize,
    w: &[u16],
    m: [i64; 4],
    home: usize,
    out: &mut [i16],
    start: usize,
    limit: usize,
) -> Way
    requires { Setting t.now v w.now out.old start limit × Real v t.now home × (det (of_list m) ≡ pos 1)
        × Small (2 ^ 60) (of_list m) }
    ensures { Walked v t.now start limit (of_list m) home out.old result out.new }
{
    let mut way = begin(t, v, w, m, home, out, start, limit);
    // It stays `while`: how many blocks there are shows in the walk, as the steps of a Euclidean algorithm.
    while is_proper(way) {
        way = block(t, v, w, way, out, start, limit);
    }
    finish(t, v, w, way, out, start, limit)
}
