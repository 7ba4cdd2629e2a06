// The figures of docs/CONVENTIONS.md, of tables that the crate `numbering` leaves in the work space: fixed points,
// cusps and their widths, genus and level. The functions have `requires`, for they are called from inside the engine.
// That the genus is a number is mathematics, without code: specs/RiemannHurwitz.antt has the formula for two
// permutations and their product, and specs/Genus.antt what it says of tables of S and R.
#![tactic(auto)]

ghost use Rattle.std.specs.Prelude.{◌≡◌, ◌++◌, ◌<◌};
ghost use Rattle.call.specs.Space.{entries};
ghost use Rattle.numbering.specs.Inner.Marks.{listed, NowListed};
ghost use Rattle.figures.specs.Cusps.{cycle, fixed_points};
ghost use Rattle.figures.specs.GenusOf.{genus_of};
ghost use Rattle.figures.specs.LevelOf.{gcd, lcm, fitting, level_of};
ghost use Rattle.figures.specs.Inner.Scan.{HoldsTable, held_t, Permuted, NewCycle, CycleDue, CycleTaken};
ghost use Rattle.figures.specs.Inner.Scan.{CuspWidths, FiguresOf, PositiveTable};

use call::refusal::Refusal;
use numbering::{R_TABLE, S_TABLE, T_TABLE, WIDTHS, has, push};

// How many places the table of n entries at `off` fixes.
fn fixed_points(w: &[u16], off: usize, n: usize) -> usize
    requires { HoldsTable off n w.now }
    ensures { result ≡ fixed_points (entries off n w.now) }
{
    let mut count: usize = 0;
    for (i, x) in w[off..off + n].iter().enumerate() {
        if usize::from(*x) == i {
            count += 1;
        }
    }
    count
}

// The points of the cycle of x under T are listed behind the c0 that are. How many are listed now.
fn mark_cycle(w: &mut [u16], n: usize, x: usize, c0: usize) -> usize
    requires { NewCycle n x c0 w.old }
    ensures { NowListed n w.old w.new
        (listed c0 w.old ++ cycle (held_t n w.old) x) result }
{
    let mut c = c0;
    let mut y = x;
    // a `loop`: the length of the cycle is what it finds
    loop {
        push(w, n, y, c);
        c += 1;
        y = usize::from(w[T_TABLE + y]);
        if y == x {
            return c;
        }
    }
}

// The state of the scan: how many points are listed, and of how many cycles.
#[derive(Clone, Copy)]
struct Counts {
    points: usize,
    cycles: usize,
}

// One point of the scan: if it is in no cycle so far, its cycle is the next cusp's, and it is the smallest point there.
fn list_cycle(w: &mut [u16], n: usize, i: usize, before: Counts) -> Counts
    requires { CycleDue n i before.points before.cycles w.old }
    ensures { CycleTaken n i w.old w.new result.points result.cycles }
{
    let Counts { points, cycles } = before;
    if has(w, n, i, points) {
        return before;
    }
    let listed = mark_cycle(w, n, i, points);
    w[WIDTHS + cycles] = (listed - points) as u16;
    Counts {
        points: listed,
        cycles: cycles + 1,
    }
}

// The widths of the cycles of T, by smallest point. How many there are.
pub fn cusp_widths(w: &mut [u16], n: usize) -> usize
    requires { Permuted n w.old }
    ensures { CuspWidths n w.old w.new result }
{
    let mut counts = Counts {
        points: 0,
        cycles: 0,
    };
    for i in 0..n {
        counts = list_cycle(w, n, i, counts);
    }
    counts.cycles
}

// The genus formula; 18 where it gives no whole number from 0, which tables of S and R never bring about (this crate):
// the case stands for any four counts, of which this function asks nothing else.
fn genus_of(index: usize, e2: usize, e3: usize, cusps: usize) -> Result<u64, Refusal>
    requires { (index < 4294967296) × (e2 < 4294967296) × (e3 < 4294967296) × (cusps < 4294967296) }
    ensures { result ≡ genus_of index e2 e3 cusps }
{
    let plus = 12 + index;
    let minus = 3 * e2 + 4 * e3 + 6 * cusps;
    if plus < minus {
        return Err(Refusal::NoGenus);
    }
    let d = plus - minus;
    if d % 12 != 0 {
        return Err(Refusal::NoGenus);
    }
    Ok((d / 12) as u64)
}

// The greatest common divisor.
fn gcd_of(a: u64, b: u64) -> u64
    ensures { result ≡ gcd a b }
{
    let mut x = a;
    let mut y = b;
    // a `while`: a step of Euclid's algorithm makes the bound
    while y != 0 {
        (x, y) = (y, x % y);
    }
    x
}

// The least common multiple of two positive numbers; 17 where it is at or over 2^64.
fn lcm_of(a: u64, b: u64) -> Result<u64, Refusal>
    requires { (0 < a) × (0 < b) }
    ensures { result ≡ fitting (lcm a b) }
{
    let q = a / gcd_of(a, b);
    q.checked_mul(b).ok_or(Refusal::LevelTooLarge)
}

// The least common multiple of the table of n positive entries at `off`: of the widths it is the level. A common
// multiple never falls as entries come to it, so the first one over is the answer.
fn level_of(w: &[u16], off: usize, n: usize) -> Result<u64, Refusal>
    requires { PositiveTable off n w.now }
    ensures { result ≡ level_of (entries off n w.now) }
{
    let mut m: u64 = 1;
    for x in &w[off..off + n] {
        m = lcm_of(m, u64::from(*x))?;
    }
    Ok(m)
}

// All figures of a group's tables.
#[derive(Clone, Copy)]
pub struct FigureRecord {
    pub index: usize,
    pub e2: usize,
    pub e3: usize,
    pub cusps: usize,
    pub genus: Result<u64, Refusal>,
    pub level: Result<u64, Refusal>,
}

// The figures of the tables of S, R and T of n points. The widths stay at WIDTHS.
pub fn figures_of(w: &mut [u16], n: usize) -> FigureRecord
    requires { Permuted n w.old }
    ensures { FiguresOf n w.old w.new result }
{
    let e2 = fixed_points(w, S_TABLE, n);
    let e3 = fixed_points(w, R_TABLE, n);
    let cusps = cusp_widths(w, n);
    let level = level_of(w, WIDTHS, cusps);
    let genus = genus_of(n, e2, e3, cusps);
    FigureRecord {
        index: n,
        e2,
        e3,
        cusps,
        genus,
        level,
    }
}
