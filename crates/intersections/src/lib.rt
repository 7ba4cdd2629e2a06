// The tables of S, R and T of the intersection of two symbols' subgroups. Its points are the pairs of cosets that are
// reached from the pair of the two subgroups, numbered as they are met; a pair is found again by its bucket (crate
// `buckets`). specs/Answer.antt says what the call answers and means.
#![tactic(auto)]

ghost use Rattle.std.specs.Prelude.{◌≡◌, ◌≤◌, length};
ghost use Rattle.call.specs.Space.{work_length, zeros, entries};
ghost use Rattle.call.specs.Inner.Fills.{Fills, made_if};
ghost use Rattle.symbol.specs.Symbol.{IsSymbol};
ghost use Rattle.numbering.specs.Table.{◌then_table◌};
ghost use Rattle.numbering.specs.Inner.Space.{S_TABLE, R_TABLE};
ghost use Rattle.containment.specs.TwoSymbols.{common_cosets, common_s, common_r, common_t};
ghost use Rattle.intersections.specs.Answer.{intersection_call};
ghost use Rattle.intersections.specs.Inner.Pairs.{VisitPair, PairVisited, WalkPairs, PairsListed, GiveTables};
ghost use Rattle.intersections.specs.Inner.Pairs.{give_steps};

use buckets::{FORMER, LATTER, enter};
use call::refusal::Refusal;
use containment::sameness::keep;
use coset::arrange::arrange;
use coset::copy_tables;
use numbering::{R_TABLE, S_TABLE, T_TABLE, compose};
use pairing::admit::admit_both;

// The most points that the tables of an intersection have.
pub const MOST: usize = 3066;

// The multiplier of the buckets: near 4,096 times the golden ratio, so that multiples of it lie far apart, and even, so
// that those of the number after it are different for different cosets. So pairs of all cosets, and those of a group
// beside itself, have short chains.
const SPREAD: usize = 2526;

// The images of the pair i by S, and next by R, take the next numbers if they are new; these are its images in the
// tables. How many pairs there are now. m is the multiplier of the buckets.
fn visit(
    w: &mut [u16],
    s: &[u16],
    r: &[u16],
    s2: &[u16],
    r2: &[u16],
    m: usize,
    i: usize,
    count: usize,
) -> usize
    requires { VisitPair w.old s.now r.now s2.now r2.now m i count }
    ensures { PairVisited w.old s.now r.now s2.now
        r2.now m i count w.new result }
{
    let x = call::workspace::index(w[FORMER + i]);
    let y = call::workspace::index(w[LATTER + i]);
    let a = enter(w, m, s[x], s2[y], count);
    let b = enter(w, m, r[x], r2[y], a.count);
    w[S_TABLE + i] = a.place as u16;
    w[R_TABLE + i] = b.place as u16;
    b.count
}

// The pairs that are reached, by number, and their tables of S and R. How many there are, or how many there were when
// they became more than 3,066.
fn list_pairs(w: &mut [u16], s: &[u16], r: &[u16], s2: &[u16], r2: &[u16], m: usize) -> usize
    requires { WalkPairs w.old s.now r.now s2.now r2.now m }
    ensures { PairsListed w.old s.now r.now s2.now
        r2.now w.new result }
{
    buckets::begin(w);
    enter(w, m, 0, 0, 0);
    let mut count: usize = 1;
    let mut i: usize = 0;
    // a `while`: its bound grows with each pair that is listed
    while i < count {
        count = visit(w, s, r, s2, r2, m, i, count);
        if MOST < count {
            return count;
        }
        i += 1;
    }
    count
}

// The tables of n pairs in the result spaces, where there are at most 3,066 and there is room for all three.
fn give(
    w: &mut [u16],
    n: usize,
    s: &mut [u32],
    r: &mut [u32],
    u: &mut [u32],
) -> Result<usize, Refusal>
    requires { GiveTables w.old n }
    ensures fills { Fills (give_steps n (entries S_TABLE n w.old) (entries R_TABLE n w.old)
        (entries S_TABLE n w.old then_table entries R_TABLE n w.old) s r u) (made_if n) result }
    ensures w_len_unchanged { length w.new ≡ length w.old }
{
    if MOST < n {
        return Err(Refusal::LargeIntersection);
    }
    compose(w, S_TABLE, R_TABLE, T_TABLE, n, n);
    copy_tables(w, n, s, r, u)
}

// The same from two accepted symbols; the work space is cleared after.
fn intersect(
    v: usize,
    t: &[i64],
    n: usize,
    u: &[i64],
    w: &mut [u16],
    a: &mut [u32],
    b: &mut [u32],
    c: &mut [u32],
) -> Result<usize, Refusal>
    requires { IsSymbol v t.now × IsSymbol n u.now × (work_length ≤ length w.old) }
    ensures fills { Fills (give_steps (length (common_cosets v t.now n u.now))
        (common_s v t.now n u.now) (common_r v t.now n u.now)
        (common_t v t.now n u.now) a b c)
        (made_if (length (common_cosets v t.now n u.now))) result }
    ensures w_after { w.new ≡ zeros (length w.old) }
{
    let mut s = [0u16; 4096];
    let mut r = [0u16; 4096];
    let mut s2 = [0u16; 4096];
    let mut r2 = [0u16; 4096];
    let k = arrange(v, t, w);
    keep(w, S_TABLE, k, &mut s);
    keep(w, R_TABLE, k, &mut r);
    let m = arrange(n, u, w);
    keep(w, S_TABLE, m, &mut s2);
    keep(w, R_TABLE, m, &mut r2);
    let count = list_pairs(w, &s, &r, &s2, &r2, SPREAD);
    let made = give(w, count, a, b, c);
    call::workspace::clear(w);
    made
}

// The tables of S, R and T of the intersection of the subgroups of the symbols in t and u, each at the front of its
// space: the first one's refusals, then the second one's, then the work space, then 24, then the result spaces for S, R
// and T.
pub fn intersection(
    v: usize,
    t: &[i64],
    n: usize,
    u: &[i64],
    w: &mut [u16],
    a: &mut [u32],
    b: &mut [u32],
    c: &mut [u32],
) -> Result<usize, Refusal>
    ensures { Fills (intersection_call v t.now n u.now w a b c).steps
        (made_if (length (common_cosets v t.now n u.now))) result }
{
    admit_both(v, t, n, u, w.len())?;
    intersect(v, t, n, u, w, a, b, c)
}
