// One matrix: the word in the generators of a symbol that carries the identity to it, up to sign, and whether it is in
// the group. Its entries are up to 10¹⁸ in size.
//
// specs/Answer.antt says what is answered and left, specs/Claim.antt what that means.
#![tactic(auto)]

ghost use Rattle.std.specs.Prelude.{◌≡◌, Ok, length};
ghost use Rattle.matrix.specs.Matrix.{of_list};
ghost use Rattle.matrix.specs.Bounds.{Small};
ghost use Rattle.call.specs.Space.{zeros, work_length};
ghost use Rattle.call.specs.Refusal.{◌or_else◌};
ghost use Rattle.call.specs.Call.{length_check};
ghost use Rattle.call.specs.Inner.Fills.{Fills, decided};
ghost use Rattle.symbol.specs.Symbol.{IsSymbol};
ghost use Rattle.coset.specs.Positions.{followed};
ghost use Rattle.word.specs.Answer.{found_steps, found_if};
ghost use Rattle.matrix_word.specs.Answer.{most_entry, identity_rows, matrix_check, is_member};
ghost use Rattle.matrix_word.specs.Answer.{member_steps, matrix_word_steps};
ghost use Rattle.matrix_word.specs.Claim.{ValidMatrix};
ghost use Rattle.matrix_word.specs.Inner.Ready.{matrix_admitted, MatrixReady};

use crate::unit::determinant_is_one;
use call::refusal::Refusal;
use coset::steps::{build, is_turned};
use symbol::check;
use walk_runs::tally;
use word::{FoundWord, find, first_beyond};

pub mod unit;

// No entry may be larger in size: 10¹⁸.
const MOST_ENTRY: u64 = 1000000000000000000;

// Refusals 28 and 9: the first entry that is too large, then a determinant that isn't 1.
fn matrix_check(m: [i64; 4]) -> Result<(), Refusal>
    ensures { result ≡ matrix_check m }
{
    let i = first_beyond(&m, MOST_ENTRY);
    if i < 4 {
        return Err(Refusal::LargeEntry(i));
    }
    if !determinant_is_one(m) {
        return Err(Refusal::BadDeterminant(0));
    }
    Ok(())
}

// The same, and then the length of the work space.
fn matrix_and_work(m: [i64; 4], work: usize) -> Result<(), Refusal>
    ensures { result ≡ (matrix_check m or_else length_check work_length work) }
{
    matrix_check(m)?;
    call::room(call::workspace::WORK, work)
}

// The checks 1 to 7 of the symbol in t, then these.
fn admit(v: usize, t: &[i64], m: [i64; 4], work: usize) -> Result<(), Refusal>
    ensures { result ≡ matrix_admitted v t.now m work }
{
    check(v, t)?;
    matrix_and_work(m, work)
}

// The matrix that the walk along m follows: m, or S⁻¹ m S where it starts turned round.
fn matrix_along(t: &[i64], v: usize, m: [i64; 4]) -> [i64; 4]
    requires { IsSymbol v t.now × Small most_entry (of_list m) }
    ensures { of_list result ≡ followed v t.now (of_list m) }
{
    if is_turned(t, v) {
        return [m[3], -m[2], -m[1], m[0]];
    }
    m
}

// The answer by the tables in the work space and the start of the symbol.
fn word_along(
    t: &[i64],
    v: usize,
    w: &[u16],
    home: usize,
    m: [i64; 4],
    out: &mut [i16],
    start: usize,
) -> Result<FoundWord, Refusal>
    requires { MatrixReady t.now v w.now m home }
    ensures { Fills (found_steps v t.now identity_rows m out start)
        (found_if v t.now identity_rows m start) result }
{
    let along = matrix_along(t, v, m);
    let end = tally(t, v, w, along, home, out, start);
    find(t, v, w, along, home, end, out, start)
}

// Whether the walk along m comes home, by the same.
fn comes_home(t: &[i64], v: usize, w: &[u16], home: usize, m: [i64; 4]) -> bool
    requires { MatrixReady t.now v w.now m home }
    ensures { result ≡ is_member v t.now m }
{
    let along = matrix_along(t, v, m);
    let mut letters = [0i16; 1];
    let end = tally(t, v, w, along, home, &mut letters, 0);
    end.at == home
}

// The answer for an accepted symbol and matrix; the work space is cleared after.
fn answer(
    v: usize,
    t: &[i64],
    m: [i64; 4],
    w: &mut [u16],
    out: &mut [i16],
    start: usize,
) -> Result<FoundWord, Refusal>
    requires { ValidMatrix v t.now m w.old }
    ensures fills { Fills (found_steps v t.now identity_rows m out start)
        (found_if v t.now identity_rows m start) result }
    ensures w_after { w.new ≡ zeros (length w.old) }
{
    let home = build(t, v, w);
    let found = word_along(t, v, w, home, m, out, start);
    call::workspace::clear(w);
    found
}

// Yes or no, for the same.
fn decide(v: usize, t: &[i64], m: [i64; 4], w: &mut [u16]) -> Result<bool, Refusal>
    requires { ValidMatrix v t.now m w.old }
    ensures value { result ≡ Ok (is_member v t.now m) }
    ensures w_after { w.new ≡ zeros (length w.old) }
{
    let home = build(t, v, w);
    let yes = comes_home(t, v, w, home, m);
    call::workspace::clear(w);
    Ok(yes)
}

// A word in the generators whose value is M up to sign, with that sign, from the start place on in `out`: checks 1 to
// 7, then 28 and 9, then the work space, then 10, then the word space.
pub fn matrix_word(
    v: usize,
    t: &[i64],
    m: [i64; 4],
    w: &mut [u16],
    out: &mut [i16],
    start: usize,
) -> Result<FoundWord, Refusal>
    ensures { Fills (matrix_word_steps v t.now m w out start)
        (found_if v t.now identity_rows m start) result }
{
    admit(v, t, m, w.len())?;
    answer(v, t, m, w, out, start)
}

// Whether M is in the group: checks 1 to 7, then 28 and 9, then the work space.
pub fn is_member(v: usize, t: &[i64], m: [i64; 4], w: &mut [u16]) -> Result<bool, Refusal>
    ensures { Fills (member_steps v t.now m w) (decided (is_member v t.now m)) result }
{
    admit(v, t, m, w.len())?;
    decide(v, t, m, w)
}
