// The steps over the positions of a symbol, for a walk. Those by S are looked up: a table of where S leads, one of the
// letters that it writes and of the steps' signs, and two of where S and then a turn lead. specs/Positions.antt says
// what the steps promise.
ghost use Rattle.std.specs.Prelude.{◌≡◌, ◌+◌, ◌/◌, ◌%◌, ◌≤◌, ◌<◌, eqb, length, pos, nat_abs, ◌-ℤ◌};
ghost use Rattle.basics.specs.Choice.{pick};
ghost use Rattle.matrix.specs.Words.{S, Q, P};
ghost use Rattle.symbol.specs.Symbol.{IsSymbol};
ghost use Rattle.polygon.specs.Cut.{places};
ghost use Rattle.polygon.specs.Step.{real, Real, step_s, written, turned};
ghost use Rattle.polygon.specs.Walk.{goes};
ghost use Rattle.polygon.specs.Inner.Tables.{PolygonTables, letters_of};
ghost use Rattle.signs.specs.Sign.{plus, ◌·◌};
ghost use Rattle.signs.specs.Step.{left_to_right, frame_sign, crossing_sign, step_sign};
ghost use Rattle.coset.specs.Positions.{StepEquation};
ghost use Rattle.coset.specs.Inner.Steps.{turn_by, StepsReady, StepTables, BuiltSteps};

use polygon::turning::next_corner;
use polygon::walking::{letter_s, step_s};

pub const NEXT: usize = 8192;

pub const LETTER: usize = 12288;

pub const FORTH: usize = 16384;

pub const BACK: usize = 20480;

// Whether the place p is a position: a corner, or the outer face of an odd side.
fn is_real(t: &[i64], v: usize, p: usize) -> bool
    requires { IsSymbol v t.now × (p < places v) }
    ensures { result ≡ real v t.now p }
{
    let b = 3 * (v - 1);
    if p < b {
        return true;
    }
    let x = t[2 * v + (p - b)];
    x == -3
}

// The sign of the frame of p against the matrix of its edge.
fn sign_of_frame(v: usize, p: usize) -> bool
    requires { (1 ≤ v) × (v ≤ 1023) }
    ensures { result ≡ frame_sign v p }
{
    let b = 3 * (v - 1);
    if p < b {
        return p % 3 != 2;
    }
    let last = b + v;
    p != last
}

// Whether the edge of p is read from left to right.
fn is_left_to_right(v: usize, p: usize) -> bool
    requires { (1 ≤ v) × (v ≤ 1023) }
    ensures { result ≡ left_to_right v p }
{
    let b = 3 * (v - 1);
    if p < b {
        return p % 3 == 0;
    }
    p != b + v
}

// The sign of the letter that S writes at p, or by the way that the edge is read where it writes none.
fn sign_of_crossing(v: usize, p: usize, letter: i16) -> bool
    requires { (1 ≤ v) × (v ≤ 1023) }
    ensures { result ≡ crossing_sign (letters_of letter) (left_to_right v p) }
{
    if letter == 0 {
        return is_left_to_right(v, p);
    }
    0 < letter
}

// The product of two signs, plus for true.
pub fn times(s: bool, r: bool) -> bool
    ensures { result ≡ s · r }
{
    if s {
        return r;
    }
    !r
}

// The sign of S from p to the place `to`, where it writes the letter, 0 for none.
fn sign_of_step(v: usize, p: usize, to: usize, letter: i16) -> bool
    requires { (1 ≤ v) × (v ≤ 1023) }
    ensures { result ≡ frame_sign v p · frame_sign v to · crossing_sign (letters_of letter) (left_to_right v p) }
{
    let here = sign_of_frame(v, p);
    let there = sign_of_frame(v, to);
    let frames = times(here, there);
    let crossing = sign_of_crossing(v, p, letter);
    times(frames, crossing)
}

// A letter, 1024 higher, so that it is no negative number.
fn coded(letter: i16) -> u16
    requires { nat_abs letter ≤ 1024 }
    ensures { (result ≤ 2048) × (pos result -ℤ pos 1024 ≡ letter) }
{
    (letter + 1024) as u16
}

// The code of a letter with that of a sign: twice the first, and one more for plus.
fn with_sign(code: u16, sign: bool) -> u16
    requires { code ≤ 2048 }
    ensures { (result / 2 ≡ code) × (eqb (result % 2) 1 ≡ sign) }
{
    if sign {
        return 2 * code + 1;
    }
    2 * code
}

// The step from the real position p is noted.
fn note_step(t: &[i64], v: usize, w: &mut [u16], p: usize)
    requires { StepsReady t.now v w.old p × (p < places v) × Real v t.now p }
    ensures { StepsReady t.now v w.new (p + 1)
        × (length w.new ≡ length w.old) }
{
    let to = step_s(t, v, w, p);
    let letter = letter_s(t, v, w, p);
    let code = coded(letter);
    let sign = sign_of_step(v, p, to, letter);
    let both = with_sign(code, sign);
    w[NEXT + p] = to as u16;
    w[LETTER + p] = both;
    let forth = turn(v, to, false);
    let back = turn(v, to, true);
    w[FORTH + p] = forth as u16;
    w[BACK + p] = back as u16;
}

// The same for any place p, where nothing is noted if it is no position.
fn note_place(t: &[i64], v: usize, w: &mut [u16], p: usize)
    requires { StepsReady t.now v w.old p × (p < places v) }
    ensures { StepsReady t.now v w.new (p + 1)
        × (length w.new ≡ length w.old) }
{
    if is_real(t, v, p) {
        note_step(t, v, w, p);
        return;
    }
}

// The steps from all positions are noted.
fn prepare(t: &[i64], v: usize, w: &mut [u16])
    requires { PolygonTables t.now v w.old }
    ensures step_tables { StepTables t.now v w.new }
    ensures w_len_unchanged { length w.new ≡ length w.old }
{
    let end = 3 * (v - 1) + (v + 1);
    for p in 0..end {
        note_place(t, v, w, p);
    }
}

// All tables of an accepted symbol's positions and steps, whatever stands in the work space: returns the position where
// the walk starts.
pub fn build(t: &[i64], v: usize, w: &mut [u16]) -> usize
    requires { IsSymbol v t.now × (32768 ≤ length w.old) }
    ensures built_steps { BuiltSteps t.now v w.new result }
    ensures w_len_unchanged { length w.new ≡ length w.old }
{
    let start = polygon::build(t, v, w);
    prepare(t, v, w);
    start
}

// S at the real position p of the symbol t.
pub fn next(t: &[i64], v: usize, w: &[u16], p: usize) -> usize
    requires { StepTables t.now v w.now × Real v t.now p }
    ensures { result ≡ step_s v t.now p }
{
    call::workspace::index(w[NEXT + p])
}

// A code as the letter.
fn decoded(code: u16) -> i16
    requires { code ≤ 2048 }
    ensures { result ≡ pos code -ℤ pos 1024 }
{
    code as i16 - 1024
}

// The letter that S writes there, 0 for none.
pub fn letter(t: &[i64], v: usize, w: &[u16], p: usize) -> i16
    requires { StepTables t.now v w.now × Real v t.now p }
    ensures { letters_of result ≡ written v t.now S p }
{
    decoded(w[LETTER + p] / 2)
}

// The sign of S there, plus for true: the frame of p times S is this sign times what is written times the frame of
// where S leads.
pub fn sign_of_s(t: &[i64], v: usize, w: &[u16], p: usize) -> bool
    requires { StepTables t.now v w.now × Real v t.now p }
    ensures value { result ≡ step_sign v t.now S p }
    ensures step_equation { StepEquation v t.now S p result (written v t.now S p) }
{
    w[LETTER + p] % 2 == 1
}

// Q at p, or Q⁻¹ where `inverse` holds: another corner of the triangle, or p itself where p is an outer face.
pub fn turn(v: usize, p: usize, inverse: bool) -> usize
    requires { (1 ≤ v) × (v ≤ 1023) }
    ensures { result ≡ turn_by v inverse p }
{
    if 3 * (v - 1) <= p {
        return p;
    }
    let c = p % 3;
    p - c + next_corner(c, inverse)
}

// S and then Q, or Q⁻¹ where `inverse` holds, at the real position p: the second table lies behind the first.
pub fn block_end(t: &[i64], v: usize, w: &[u16], p: usize, inverse: bool) -> usize
    requires { StepTables t.now v w.now × Real v t.now p }
    ensures { result ≡ goes v t.now (pick inverse P Q) (step_s v t.now p) }
{
    let table = FORTH + 4096 * (inverse as usize);
    call::workspace::index(w[table + p])
}

// The letter that Q, or Q⁻¹ where `inverse` holds, writes at the real position p, 0 where it writes none. The sign of a
// turn is plus: the frame of p times Q or Q⁻¹ is what is written times the frame of where the turn leads.
pub fn letter_q(t: &[i64], v: usize, w: &[u16], p: usize, inverse: bool) -> i16
    requires { StepTables t.now v w.now × Real v t.now p }
    ensures result_value { letters_of result ≡ written v t.now (pick inverse P Q) p }
    ensures step_equation { StepEquation v t.now (pick inverse P Q) p plus (letters_of result) }
{
    polygon::walking::letter_q(t, v, w, p, inverse)
}

// Whether the walk starts turned round: the last side starts at 0/1 and is not odd.
pub fn is_turned(t: &[i64], v: usize) -> bool
    requires { IsSymbol v t.now }
    ensures { result ≡ turned v t.now }
{
    polygon::walking::is_turned(t, v)
}
