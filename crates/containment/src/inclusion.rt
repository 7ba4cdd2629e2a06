// Whether the first symbol's subgroup contains the second's: the positions of the second are followed in those of the
// first. It is the same one exactly where it is contained, and the two have the same index; so both questions are one
// function's. specs/Inclusion.antt and specs/Same.antt say what the calls answer and mean.
ghost use Rattle.std.specs.Prelude.{◌≡◌, ◌+◌, ◌≤◌, length};
ghost use Rattle.basics.specs.Choice.{pick};
ghost use Rattle.call.specs.Space.{work_length, zeros};
ghost use Rattle.call.specs.Inner.Fills.{Fills, decided};
ghost use Rattle.symbol.specs.Symbol.{IsSymbol};
ghost use Rattle.polygon.specs.Step.{odd_at};
ghost use Rattle.coset.specs.Tables.{index_of};
ghost use Rattle.containment.specs.Group.{same_tables};
ghost use Rattle.containment.specs.TwoSymbols.{contained};
ghost use Rattle.containment.specs.Inclusion.{contains_call};

use crate::following::{follow, hold_steps, lay_out};
use call::refusal::Refusal;
use pairing::admit::admit_both;

// Whether side i is odd.
fn is_odd(v: usize, t: &[i64], i: usize) -> bool
    requires { IsSymbol v t.now × (i ≤ v) }
    ensures { result ≡ odd_at v t.now i }
{
    let x = t[2 * v + i];
    x == -3
}

// One more than k, where side i is odd; else k.
fn count_odd(v: usize, t: &[i64], i: usize, k: usize) -> usize
    requires { IsSymbol v t.now × (i ≤ v) × (k ≤ 8192) }
    ensures { result ≡ k + pick (odd_at v t.now i) 1 0 }
{
    if is_odd(v, t, i) {
        return k + 1;
    }
    k
}

// The index of an accepted symbol's subgroup: three positions for each triangle, and one for each odd side.
fn index_of(v: usize, t: &[i64]) -> usize
    requires { IsSymbol v t.now }
    ensures { result ≡ index_of v t.now }
{
    let mut k = 3 * (v - 1);
    for i in 0..v + 1 {
        k = count_odd(v, t, i, k);
    }
    k
}

// Whether the first of two accepted symbols has all of the second's subgroup.
pub fn contains_accepted(v: usize, t: &[i64], n: usize, u: &[i64], w: &mut [u16]) -> bool
    requires { IsSymbol v t.now × IsSymbol n u.now × (work_length ≤ length w.old) }
    ensures { (result ≡ contained n u.now v t.now)
        × (length w.new ≡ length w.old) }
{
    let mut s = [0u16; 4096];
    let y = lay_out(v, t, w);
    hold_steps(v, t, w, &mut s);
    let o = lay_out(n, u, w);
    follow(v, t, &s, y, n, u, w, o)
}

// Whether two accepted symbols have the same subgroup: the same index, and the one contains the other.
fn same_accepted(v: usize, t: &[i64], n: usize, u: &[i64], w: &mut [u16]) -> bool
    requires { IsSymbol v t.now × IsSymbol n u.now × (work_length ≤ length w.old) }
    ensures { (result ≡ same_tables v t.now n u.now)
        × (length w.new ≡ length w.old) }
{
    let k = index_of(v, t);
    let m = index_of(n, u);
    if k != m {
        return false;
    }
    contains_accepted(v, t, n, u, w)
}

// What is asked of two accepted symbols: whether they have the same subgroup, or whether the first one's contains the
// second one's.
fn compare(v: usize, t: &[i64], n: usize, u: &[i64], w: &mut [u16], same: bool) -> bool
    requires { IsSymbol v t.now × IsSymbol n u.now × (work_length ≤ length w.old) }
    ensures { (result ≡ pick same (same_tables v t.now n u.now)
        (contained n u.now v t.now)) × (length w.new ≡ length w.old) }
{
    if same {
        return same_accepted(v, t, n, u, w);
    }
    contains_accepted(v, t, n, u, w)
}

// The same; the work space is cleared after.
fn compare_clear(v: usize, t: &[i64], n: usize, u: &[i64], w: &mut [u16], same: bool) -> bool
    requires { IsSymbol v t.now × IsSymbol n u.now × (work_length ≤ length w.old) }
    ensures value { result ≡ pick same (same_tables v t.now n u.now)
        (contained n u.now v t.now) }
    ensures w_after { w.new ≡ zeros (length w.old) }
{
    let answer = compare(v, t, n, u, w, same);
    call::workspace::clear(w);
    answer
}

// The answer of both calls: the first symbol's refusals, then the second one's, then the work space's.
pub(crate) fn decide(
    v: usize,
    t: &[i64],
    n: usize,
    u: &[i64],
    w: &mut [u16],
    same: bool,
) -> Result<bool, Refusal>
    ensures { Fills (contains_call v t.now n u.now w).steps
        (decided (pick same (same_tables v t.now n u.now)
        (contained n u.now v t.now))) result }
{
    admit_both(v, t, n, u, w.len())?;
    Ok(compare_clear(v, t, n, u, w, same))
}

// Whether the subgroup of the symbol in t contains that of the symbol in u.
pub fn contains(v: usize, t: &[i64], n: usize, u: &[i64], w: &mut [u16]) -> Result<bool, Refusal>
    ensures { Fills (contains_call v t.now n u.now w).steps
        (decided (contained n u.now v t.now)) result }
{
    decide(v, t, n, u, w, false)
}
