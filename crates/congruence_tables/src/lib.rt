// The tables of S and R of Γ0(N), Γ1(N) and Γ(N). The right cosets are numbered as they are met: each is kept by two
// numbers that tell the cosets apart (module `residues`), and found again by the bucket of these (crate `buckets`).
// specs/Inner/Held.antt says what stands in the work space. The functions have `requires`, for they are called from
// inside the engine.
#![tactic(auto)]

ghost use Rattle.std.specs.Prelude.{◌≡◌, ◌++◌, ◌+◌, ◌≤◌, ◌<◌, length, drop};
ghost use Rattle.call.specs.Space.{work_length};
ghost use Rattle.congruence.specs.Index.{family_index};
ghost use Rattle.congruence.specs.Cosets.{family_cosets, family_s, family_r};
ghost use Rattle.matrix.specs.Matrix.{𝟙, mat_s, mat_r};
ghost use Rattle.congruence.specs.Inner.Common.{Modulus};
ghost use Rattle.congruence_tables.specs.Inner.Residues.{Stands, ImageBy, SmallOf};
ghost use Rattle.congruence_tables.specs.Inner.Held.{residues_at, Group, HoldsCosets, with_column, ColumnsFor};
ghost use Rattle.congruence_tables.specs.Inner.Held.{ColumnsMade, ColumnsReady, Points, PointAt, TakesImage};
ghost use Rattle.congruence_tables.specs.Inner.Held.{with_row, Enters, EntersAs, Visits, VisitsTo, Started};
ghost use Rattle.congruence_tables.specs.Inner.Held.{Tabulates};

use crate::residues::{
    Residues, difference, first, multiplier, opposite, second, signed, signed_row, times_r, times_s,
};
use buckets::{Entry, FORMER, LATTER};
use congruence::Family;
use congruence::modular::common_divisor;

pub mod residues;

// The places of the tables in the work space.
pub const ROW_C: usize = 4096;

pub const ROW_D: usize = 24576;

pub const PART: usize = 28672;

pub const MULTIPLIER: usize = 29696;

fn wide(x: u16) -> u64
    ensures { result ≡ x }
{
    x as u64
}

// The entry j.
fn load(f: Family, w: &[u16], j: usize) -> Residues
    requires { (work_length ≤ length w.now) × (j < 4096) }
    ensures { result ≡ residues_at f w.now j }
{
    let p = wide(w[FORMER + j]);
    let q = wide(w[LATTER + j]);
    match f {
        Family::Gamma0 => Residues {
            a: p,
            b: q,
            c: wide(w[ROW_C + j]),
            d: wide(w[ROW_D + j]),
        },
        Family::Gamma1 => Residues {
            a: 0,
            b: 0,
            c: p,
            d: q,
        },
        Family::Gamma => Residues {
            a: p / 64,
            b: p % 64,
            c: q / 64,
            d: q % 64,
        },
    }
}

// The part h and the multiplier s of the column c.
fn store_column(w: &mut [u16], c: usize, h: u64, s: u64)
    requires { (work_length ≤ length w.old) × (c ≤ 1000) × (h ≤ 1000) × (s ≤ 1000) }
    ensures { w.new ≡ with_column w.old c h s }
{
    w[PART + c] = h as u16;
    w[MULTIPLIER + c] = s as u16;
}

// The parts and multipliers of all columns. Those of -c are the part of c and the negative of its multiplier.
fn columns(n: u64, w: &mut [u16])
    requires { Modulus n × (work_length ≤ length w.old) }
    ensures { ColumnsMade n w.old w.new }
{
    let mut c: u64 = 0;
    while c + c <= n {
        let r = common_divisor(n, c);
        store_column(w, c as usize, r.h, r.s);
        store_column(w, (n - c) as usize, r.h, n - r.s);
        c += 1;
    }
}

// The same, where the family needs them.
fn prepare(f: Family, n: u64, w: &mut [u16])
    requires { Modulus n × (work_length ≤ length w.old) }
    ensures { ColumnsReady f n w.old w.new }
{
    match f {
        Family::Gamma0 => columns(n, w),
        Family::Gamma1 => {}
        Family::Gamma => {}
    }
}

// The entry of the point (c : d).
fn point(n: u64, w: &[u16], c: u64, d: u64) -> Residues
    requires { Points n w.now c d }
    ensures { PointAt n c d result }
{
    let i = c as usize;
    let h = wide(w[PART + i]);
    let s = wide(w[MULTIPLIER + i]);
    Residues {
        a: h,
        b: d * s % h,
        c: c,
        d: d,
    }
}

// The entry of m S, where x is one of m.
fn image_s(f: Family, n: u64, w: &[u16], x: Residues) -> Residues
    requires { TakesImage f n w.now x }
    ensures { ImageBy f n mat_s x result }
{
    match f {
        Family::Gamma0 => point(n, w, x.d, opposite(n, x.c)),
        Family::Gamma1 => signed_row(n, x.d, opposite(n, x.c)),
        Family::Gamma => signed(n, times_s(n, x)),
    }
}

// The entry of m R.
fn image_r(f: Family, n: u64, w: &[u16], x: Residues) -> Residues
    requires { TakesImage f n w.now x }
    ensures { ImageBy f n mat_r x result }
{
    match f {
        Family::Gamma0 => point(n, w, x.d, difference(n, x.d, x.c)),
        Family::Gamma1 => signed_row(n, x.d, difference(n, x.d, x.c)),
        Family::Gamma => signed(n, times_r(n, x)),
    }
}

// The row of x, where the family needs it beside the pair, at i.
fn lay(f: Family, w: &mut [u16], i: usize, x: Residues)
    requires { (work_length ≤ length w.old) × (i < 4096) × SmallOf x }
    ensures { w.new ≡ with_row f w.old i x }
{
    match f {
        Family::Gamma0 => {
            w[ROW_C + i] = x.c as u16;
            w[ROW_D + i] = x.d as u16;
        }
        Family::Gamma1 => {}
        Family::Gamma => {}
    }
}

// The coset of x joins the list, if it is new.
fn enter(f: Family, n: u64, w: &mut [u16], count: usize, x: Residues) -> Entry
    requires { Enters f n w.old count x }
    ensures { EntersAs f n w.old count x w.new result.place result.count }
{
    lay(f, w, count, x);
    buckets::enter(w, multiplier(f, n), first(f, x), second(f, x), count)
}

fn narrow(x: usize) -> u32
    requires { x < 4096 }
    ensures { result ≡ x }
{
    x as u32
}

// The images of the coset i by S, and next by R, join the list; their places are the images of i in the tables s and r.
// How many there are now.
fn visit(
    f: Family,
    n: u64,
    w: &mut [u16],
    s: &mut [u32],
    r: &mut [u32],
    i: usize,
    count: usize,
) -> usize
    requires { Visits f n w.old s.old r.old i count }
    ensures { VisitsTo f n w.old s.old r.old i count w.new
        s.new r.new result }
{
    let x = load(f, w, i);
    let y = image_s(f, n, w, x);
    let a = enter(f, n, w, count, y);
    let z = image_r(f, n, w, x);
    let b = enter(f, n, w, a.count, z);
    s[i] = narrow(a.place);
    r[i] = narrow(b.place);
    b.count
}

// The entry of the identity.
fn identity(f: Family, n: u64, w: &[u16]) -> Residues
    requires { Modulus n × (work_length ≤ length w.now) × ColumnsFor f n w.now }
    ensures { Stands f n result 𝟙 }
{
    let one = 1 % n;
    match f {
        Family::Gamma0 => point(n, w, 0, one),
        Family::Gamma1 => signed_row(n, 0, one),
        Family::Gamma => signed(
            n,
            Residues {
                a: one,
                b: 0,
                c: 0,
                d: one,
            },
        ),
    }
}

// The identity's coset with the number 0, and no other.
fn begin(f: Family, n: u64, w: &mut [u16])
    requires { Group f n × (work_length ≤ length w.old) }
    ensures { Started f n w.old w.new }
{
    buckets::begin(w);
    prepare(f, n, w);
    let x = identity(f, n, w);
    enter(f, n, w, 0, x);
}

// The tables of S and R at the front of s and r. How many points they have. The work space is not cleared after.
pub fn tables(f: Family, n: u64, w: &mut [u16], s: &mut [u32], r: &mut [u32]) -> usize
    requires { Tabulates f n w.old s.old r.old }
    ensures value { result ≡ family_index f n }
    ensures s_after { s.new ≡ family_s f n ++ drop (family_index f n) s.old }
    ensures r_after { r.new ≡ family_r f n ++ drop (family_index f n) r.old }
    ensures holds_cosets { HoldsCosets f n (family_cosets f n) w.new result }
{
    begin(f, n, w);
    let mut count: usize = 1;
    let mut i: usize = 0;
    // a `while`: its bound grows with each coset that is listed
    while i < count {
        count = visit(f, n, w, s, r, i, count);
        i += 1;
    }
    count
}
