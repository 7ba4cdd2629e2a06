// Whether two symbols generate the same subgroup: the question is that of containment with one test more, and so it is
// answered there. specs/Group.antt says what it means, specs/Same.antt what the call answers and leaves.
ghost use Rattle.std.specs.Prelude.{◌≡◌, ◌++◌, ◌+◌, ◌≤◌, length, drop};
ghost use Rattle.call.specs.Space.{entries};
ghost use Rattle.call.specs.Inner.Fills.{Fills, decided};
ghost use Rattle.containment.specs.Group.{same_tables};
ghost use Rattle.containment.specs.Same.{same_call};

use crate::inclusion::decide;
use call::refusal::Refusal;

// The table of n entries at `off`, kept at the front of out.
pub fn keep(w: &[u16], off: usize, n: usize, out: &mut [u16])
    requires { (off ≤ 32768) × (off + n ≤ length w.now) × (n ≤ length out.old) }
    ensures { out.new ≡ entries off n w.now ++ drop n out.old }
{
    for j in 0..n {
        out[j] = w[off + j];
    }
}

// Whether two tables hold symbols of one subgroup: the first one's refusals, then the second one's, then the work
// space's.
pub fn same(v: usize, t: &[i64], n: usize, u: &[i64], w: &mut [u16]) -> Result<bool, Refusal>
    ensures { Fills (same_call v t.now n u.now w).steps
        (decided (same_tables v t.now n u.now)) result }
{
    decide(v, t, n, u, w, true)
}
