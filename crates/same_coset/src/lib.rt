// Whether two matrices share a right coset of a symbol's group: yes or no without a word, for one pair and for many.
//
// specs/Answer.antt says what is answered for one pair and what that means, specs/Pairs.antt the same for many.
#![tactic(auto)]

ghost use Rattle.std.specs.Prelude.{◌≡◌, Ok, length};
ghost use Rattle.matrix.specs.Matrix.{of_list};
ghost use Rattle.call.specs.Space.{zeros};
ghost use Rattle.call.specs.Inner.Fills.{Fills, decided};
ghost use Rattle.word.specs.Answer.{closes};
ghost use Rattle.word.specs.Claim.{ValidQuery};
ghost use Rattle.same_coset.specs.Inner.Places.{Prepared};
ghost use Rattle.same_coset.specs.Inner.Rows.{OneMatrix};
ghost use Rattle.same_coset.specs.Answer.{same_coset_steps};
ghost use Rattle.same_coset.specs.Inner.Ready.{Shares};

use crate::t_runs::{arrive_both, prepare};
use call::refusal::Refusal;
use symbol::check;
use word::pair_check;

pub mod pairs;
pub mod t_runs;
mod tables;

// Whether a and b lead to the same place, by the tables in the work space.
fn share(w: &[u16], n: usize, a: [i64; 4], b: [i64; 4]) -> bool
    requires { Prepared n w.now × OneMatrix a × OneMatrix b }
    ensures { Shares n w.now a b result }
{
    let (first, second) = arrive_both(w, n, a, b);
    first == second
}

// The answer for an accepted symbol and pair; the work space is cleared after.
fn answer(v: usize, t: &[i64], a: [i64; 4], b: [i64; 4], w: &mut [u16]) -> Result<bool, Refusal>
    requires { ValidQuery v t.now a b w.old }
    ensures value { result ≡ Ok (closes v t.now (of_list a) (of_list b)) }
    ensures w_after { w.new ≡ zeros (length w.old) }
{
    let n = prepare(v, t, w);
    let shared = share(w, n, a, b);
    call::workspace::clear(w);
    Ok(shared)
}

// Whether A and B share a right coset: checks 1 to 7, then 8 and 9, A before B under each, then the work space.
pub fn same_coset(
    v: usize,
    t: &[i64],
    a: [i64; 4],
    b: [i64; 4],
    w: &mut [u16],
) -> Result<bool, Refusal>
    ensures { Fills (same_coset_steps v t.now a b w)
        (decided (closes v t.now (of_list a) (of_list b))) result }
{
    check(v, t)?;
    pair_check(a, b)?;
    call::room(call::workspace::WORK, w.len())?;
    answer(v, t, a, b, w)
}
