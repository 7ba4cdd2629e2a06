// Where a matrix leads in coset tables, run by run of T: division to the nearest multiple on its first column finds the
// runs, and each is one look in its cusp, by the remainder of its length by the cusp's width. specs/Runs.antt says what
// is promised, specs/Inner has the tables by place.
ghost use Rattle.std.specs.Prelude.{◌≡◌, ◌+◌, ◌*◌, ◌/◌, ◌%◌, ◌≤◌, ◌<◌, length, pos, nat_abs, ◌-ℤ◌, ◌*ℤ◌};
ghost use Rattle.basics.specs.Choice.{pick};
ghost use Rattle.std.specs.Int.Signed.{non_neg};
ghost use Rattle.call.specs.Space.{work_length};
ghost use Rattle.matrix.specs.Matrix.{of_list};
ghost use Rattle.matrix.specs.Bounds.{Small};
ghost use Rattle.symbol.specs.Symbol.{IsSymbol};
ghost use Rattle.figures.specs.Inner.Scan.{held_t};
ghost use Rattle.same_coset.specs.Runs.{Arrived};
ghost use Rattle.same_coset.specs.Inner.Places.{held_turns, steps_on, run_place, InCusp, along_cusp, Prepared};
ghost use Rattle.same_coset.specs.Inner.Places.{SymbolPlaces};
ghost use Rattle.same_coset.specs.Inner.Rows.{signed, LIMIT, DividesNearest, OneMatrix};
ghost use Rattle.same_coset.specs.Inner.Rows.{SoundRemaining, Subtracts, WholeRemaining, AfterRun, RemainsLater};
ghost use Rattle.same_coset.specs.Inner.Rows.{LeadsTo};

use cusp_record::arrange_record;

// The tables by place.
pub const TURN: usize = 24576;

pub const END: usize = 4096;

pub const WIDTH: usize = 16384;

// A division to the nearest multiple: how many times the divisor, how far from it, and whether that multiple is the
// larger number.
#[derive(Clone, Copy)]
pub struct Division {
    pub quotient: u32,
    pub distance: u32,
    pub up: bool,
}

// The matrix that remains of another one, and the place so far. Up to sign it is (a b; c d), or (a b; -c -d) where its
// rows aren't aligned: so both entries of its first column are counted without a sign.
#[derive(Clone, Copy)]
pub struct Remaining {
    pub a: u32,
    pub b: i64,
    pub c: u32,
    pub d: i64,
    pub aligned: bool,
    pub place: usize,
}

// ---- runs in a cusp

// The remainder of a run's length q by the width d. A run that is shorter than its cusp is wide needs no division.
fn shortened(q: u32, d: usize) -> usize
    requires { (0 < d) × (d ≤ 4096) }
    ensures { result ≡ q % d }
{
    let n = q as usize;
    if d <= n {
        return n % d;
    }
    n
}

// The steps onward of T^q, or of T^-q, in a cusp of width d.
fn steps_on(onward: bool, q: u32, d: usize) -> usize
    requires { (0 < d) × (d ≤ 4096) }
    ensures { result ≡ steps_on onward q d }
{
    let rest = shortened(q, d);
    if onward {
        return rest;
    }
    d - rest
}

// The place j steps onward from the place y, one of the d places before `end`.
fn along_cusp(end: usize, d: usize, y: usize, j: usize) -> usize
    requires { InCusp end d y × (j ≤ d) × (d ≤ 4096) }
    ensures { result ≡ along_cusp end d y j }
{
    let next = y + j;
    if next < end {
        return next;
    }
    next - d
}

// Where the run T^q leads from a place, or T^-q where it isn't onward.
fn slide(w: &[u16], n: usize, place: usize, onward: bool, q: u32) -> usize
    requires { Prepared n w.now × (place < n) }
    ensures { result ≡ run_place (held_t n w.now) onward q place }
{
    let end = call::workspace::index(w[END + place]);
    let d = call::workspace::index(w[WIDTH + place]);
    let j = steps_on(onward, q, d);
    along_cusp(end, d, place, j)
}

// ---- signs and sizes

// x or -x.
fn with_sign(plus: bool, x: i64) -> i64
    requires { nat_abs x ≤ LIMIT }
    ensures { result ≡ signed plus x }
{
    if plus {
        return x;
    }
    -x
}

// The size of x.
fn size(x: i64) -> u32
    requires { nat_abs x ≤ LIMIT }
    ensures { result ≡ nat_abs x }
{
    x.unsigned_abs() as u32
}

// One of two numbers. It is small for the sake of the compiler, which then needs no jump: whether a division rounds up
// cannot be foreseen.
fn choose(test: bool, x: u32, y: u32) -> u32
    ensures { result ≡ pick test x y }
{
    if test {
        return x;
    }
    y
}

// b - q d
fn subtract(b: i64, q: u32, d: i64) -> i64
    requires { Subtracts b q d }
    ensures { result ≡ b -ℤ pos q *ℤ d }
{
    b - i64::from(q) * d
}

// ---- one matrix

// The division of a by c. To the nearest multiple, since what is left is at most half of c then, and fewer runs are
// needed.
fn divide(a: u32, c: u32) -> Division
    requires { (0 < c) × (a ≤ LIMIT) }
    ensures { DividesNearest a c result }
{
    let below = a / c;
    let over = a % c;
    let missing = c - over;
    let up = missing < over;
    Division {
        quotient: choose(up, below + 1, below),
        distance: choose(up, missing, over),
        up,
    }
}

// The matrix m before any run.
fn all_of(m: [i64; 4]) -> Remaining
    requires { Small LIMIT (of_list m) }
    ensures { WholeRemaining (of_list m) result }
{
    let [upper, upper_right, lower, lower_right] = m;
    let h = upper >= 0;
    let k = lower >= 0;
    Remaining {
        a: size(upper),
        b: with_sign(h, upper_right),
        c: size(lower),
        d: with_sign(k, lower_right),
        aligned: h == k,
        place: 0,
    }
}

// One run of T, and S. The rows change places, and the sign of the new lower row changes, once more where the division
// rounds up.
fn turn(w: &[u16], n: usize, x: Remaining) -> Remaining
    requires { Prepared n w.now × SoundRemaining n x × (0 < x.c) }
    ensures { AfterRun n w.now x result }
{
    let e = divide(x.a, x.c);
    let right = subtract(x.b, e.quotient, x.d);
    let y = slide(w, n, x.place, x.aligned, e.quotient);
    Remaining {
        a: x.c,
        b: x.d,
        c: e.distance,
        d: with_sign(!e.up, right),
        aligned: e.up == x.aligned,
        place: call::workspace::index(w[TURN + y]),
    }
}

// The last run of T.
fn finish(w: &[u16], n: usize, x: Remaining) -> usize
    requires { Prepared n w.now × SoundRemaining n x }
    ensures { result ≡ run_place (held_t n w.now) (non_neg x.b) (nat_abs x.b) x.place }
{
    slide(w, n, x.place, x.b >= 0, size(x.b))
}

// The place to which all that remains leads.
fn go_on(w: &[u16], n: usize, a: Remaining) -> usize
    requires { Prepared n w.now × SoundRemaining n a }
    ensures { LeadsTo n w.now a result }
{
    let mut x = a;
    // It stays `while`: how many runs there are shows in the loop, as the quotients of a Euclidean algorithm.
    while x.c != 0 {
        x = turn(w, n, x);
    }
    finish(w, n, x)
}

// ---- two matrices

// Two matrices run by run, until one of them has only its last run left. They go side by side since the divisions of
// one need not wait for those of the other.
fn side_by_side(w: &[u16], n: usize, a: Remaining, b: Remaining) -> (Remaining, Remaining)
    requires { Prepared n w.now × SoundRemaining n a × SoundRemaining n b }
    ensures remains_later { RemainsLater n w.now a result.0 }
    ensures remains_later_2 { RemainsLater n w.now b result.1 }
{
    let mut x = a;
    let mut y = b;
    // It stays `while`, as in `go_on`.
    while x.c != 0 && y.c != 0 {
        x = turn(w, n, x);
        y = turn(w, n, y);
    }
    (x, y)
}

// The places to which two matrices lead.
pub fn arrive_both(w: &[u16], n: usize, a: [i64; 4], b: [i64; 4]) -> (usize, usize)
    requires { Prepared n w.now × OneMatrix a × OneMatrix b }
    ensures arrived { Arrived (held_turns n w.now) (held_t n w.now) (of_list a) result.0 }
    ensures arrived_2 { Arrived (held_turns n w.now) (held_t n w.now) (of_list b) result.1 }
{
    let (x, y) = side_by_side(w, n, all_of(a), all_of(b));
    (go_on(w, n, x), go_on(w, n, y))
}

// ---- the tables

// The tables by place of an accepted symbol in the work space; how many cosets there are.
pub fn prepare(v: usize, t: &[i64], w: &mut [u16]) -> usize
    requires { IsSymbol v t.now × (work_length ≤ length w.old) }
    ensures { SymbolPlaces v t.now w.old w.new result }
{
    let n = arrange_record(v, t, w);
    crate::tables::enter_turns(w, n);
    crate::tables::enter_ends(w, n);
    n
}
