// Pair queries: whether some product of a symbol's generators and their inverses takes one matrix to another, up to
// sign, which, and with which sign.
//
// specs/Answer.antt says what a query answers and leaves, specs/Claim.antt what that means.
#![tactic(auto)]

ghost use Rattle.std.specs.Prelude.{◌≡◌, ◌+◌, ◌-◌, ◌≤◌, ◌<◌, length};
ghost use Rattle.matrix.specs.Matrix.{of_list, to_list, ◌⊗◌, adj};
ghost use Rattle.matrix.specs.Bounds.{Small};
ghost use Rattle.call.specs.Space.{zeros};
ghost use Rattle.basics.specs.Count.{first};
ghost use Rattle.symbol.specs.Symbol.{IsSymbol};
ghost use Rattle.coset.specs.Positions.{followed};
ghost use Rattle.walk_runs.specs.Inner.Rounds.{Rounds};
ghost use Rattle.walk_runs.specs.Inner.Tally.{WalkTallied};
ghost use Rattle.call.specs.Inner.Fills.{Fills};
ghost use Rattle.word.specs.Answer.{sign_number, four, beyond, large, unit, matrices_check, part_of};
ghost use Rattle.word.specs.Answer.{word_steps, word_if, found_steps, found_if, query_steps};
ghost use Rattle.word.specs.Claim.{ValidQuery};
ghost use Rattle.word.specs.Inner.Ready.{letters_along, sign_along_walk, home_along, WalkReady, PairReady};

use call::refusal::Refusal;
use coset::steps::{build, is_turned};
use matrix::{determinant, inverse, matrix_s, product};
use symbol::check;
use walk::walk;
use walk_runs::{Stop, tally, tally_by};

// The word that `query` found, in the lent space.
#[derive(Clone, Copy)]
pub struct FoundWord {
    // The place where it starts.
    pub start: usize,
    // How many letters it has.
    pub letters: usize,
    // Its sign: plus, or minus.
    pub plus: bool,
}

// The matrix in the four numbers from the number i on.
pub fn four_at(ns: &[i64], i: usize) -> [i64; 4]
    requires { i + 4 ≤ length ns.now }
    ensures { result ≡ four ns.now i }
{
    [ns[i], ns[i + 1], ns[i + 2], ns[i + 3]]
}

// The first entry that is beyond `most` in size, or how many there are.
pub fn first_beyond(entries: &[i64], most: u64) -> usize
    ensures { result ≡ first (beyond most entries.now) (length entries.now) }
{
    for (i, x) in entries.iter().enumerate() {
        if most < x.unsigned_abs() {
            return i;
        }
    }
    entries.len()
}

// The first entry of the pair that is too large, or 8.
fn first_large(a: [i64; 4], b: [i64; 4]) -> usize
    ensures { result ≡ first (large a b) 8 }
{
    first_beyond([a, b].as_flattened(), 1000000)
}

// Whether the determinant of m is 1.
fn is_unit(m: [i64; 4]) -> bool
    requires { Small 1000000 (of_list m) }
    ensures { result ≡ unit m }
{
    determinant(m) == 1
}

// Refusals 8 and 9: the first entry that is too large, then the first determinant that isn't 1.
pub fn pair_check(a: [i64; 4], b: [i64; 4]) -> Result<(), Refusal>
    ensures { result ≡ matrices_check a b }
{
    let i = first_large(a, b);
    if i < 8 {
        return Err(Refusal::MatrixEntry(i));
    }
    if !is_unit(a) {
        return Err(Refusal::BadDeterminant(0));
    }
    if !is_unit(b) {
        return Err(Refusal::BadDeterminant(1));
    }
    Ok(())
}

// The matrix that the walk from a to b follows: b a⁻¹, or S⁻¹ b a⁻¹ S where it starts turned round.
fn matrix_between(t: &[i64], v: usize, a: [i64; 4], b: [i64; 4]) -> [i64; 4]
    requires { IsSymbol v t.now × Small 1000000 (of_list a) × Small 1000000 (of_list b) }
    ensures { result ≡ to_list (followed v t.now (of_list b ⊗ adj (of_list a))) }
{
    let x = product(b, inverse(a));
    if is_turned(t, v) {
        let s = matrix_s();
        let back = inverse(s);
        return product(back, product(x, s));
    }
    x
}

// The answer by the walk along m from home, which ends at `end`, by the tables in the work space: the letters are
// stored once they are known to fit.
pub fn find(
    t: &[i64],
    v: usize,
    w: &[u16],
    m: [i64; 4],
    home: usize,
    end: Stop,
    out: &mut [i16],
    start: usize,
) -> Result<FoundWord, Refusal>
    requires { WalkReady t.now v w.now m home × WalkTallied v t.now (of_list m) home end }
    ensures { Fills
        (word_steps (home_along v t.now (of_list m)) (letters_along v t.now (of_list m)) out start)
        (word_if start (length (letters_along v t.now (of_list m)))
        (sign_along_walk v t.now (of_list m))) result }
{
    if end.at != home {
        return Err(Refusal::NoWord);
    }
    let n = end.count;
    if out.len() < start {
        return Err(Refusal::TooShort(n));
    }
    if out.len() - start < n {
        return Err(Refusal::TooShort(n));
    }
    let way = walk(t, v, w, m, home, out, start, n);
    Ok(FoundWord {
        start,
        letters: n,
        plus: way.sign,
    })
}

// The answer for a pair that passed 8 and 9, by the tables in the work space and the start of the symbol.
pub fn answer_ready(
    t: &[i64],
    v: usize,
    w: &[u16],
    home: usize,
    a: [i64; 4],
    b: [i64; 4],
    out: &mut [i16],
    start: usize,
) -> Result<FoundWord, Refusal>
    requires { PairReady t.now v w.now a b home }
    ensures { Fills (found_steps v t.now a b out start) (found_if v t.now a b start) result }
{
    let m = matrix_between(t, v, a, b);
    let end = tally(t, v, w, m, home, out, start);
    find(t, v, w, m, home, end, out, start)
}

// The same by tables of rounds that are lent, and kept for the next pair.
pub fn answer_by(
    t: &[i64],
    v: usize,
    w: &[u16],
    r: &mut [u16],
    home: usize,
    a: [i64; 4],
    b: [i64; 4],
    out: &mut [i16],
    start: usize,
) -> Result<FoundWord, Refusal>
    requires { PairReady t.now v w.now a b home × Rounds v t.now r.old }
    ensures fills { Fills (found_steps v t.now a b out start) (found_if v t.now a b start) result }
    ensures rounds { Rounds v t.now r.new }
{
    let m = matrix_between(t, v, a, b);
    let end = tally_by(t, v, w, r, m, home, out, start);
    find(t, v, w, m, home, end, out, start)
}

// The answer for an accepted symbol and pair; the work space is cleared after.
fn answer(
    v: usize,
    t: &[i64],
    a: [i64; 4],
    b: [i64; 4],
    w: &mut [u16],
    out: &mut [i16],
    start: usize,
) -> Result<FoundWord, Refusal>
    requires { ValidQuery v t.now a b w.old }
    ensures fills { Fills (found_steps v t.now a b out start) (found_if v t.now a b start) result }
    ensures w_after { w.new ≡ zeros (length w.old) }
{
    let home = build(t, v, w);
    let found = answer_ready(t, v, w, home, a, b, out, start);
    call::workspace::clear(w);
    found
}

// A word in the generators that takes A to B up to sign, with that sign, from the start place on in `out`: checks 1 to
// 7, then 8 and 9, A before B under each, then the work space, then 10, then the word space.
pub fn query(
    v: usize,
    t: &[i64],
    a: [i64; 4],
    b: [i64; 4],
    w: &mut [u16],
    out: &mut [i16],
    start: usize,
) -> Result<FoundWord, Refusal>
    ensures { Fills (query_steps v t.now a b w out start) (found_if v t.now a b start) result }
{
    check(v, t)?;
    pair_check(a, b)?;
    call::room(call::workspace::WORK, w.len())?;
    answer(v, t, a, b, w, out, start)
}

// The number of a sign: 1 for plus, -1 for minus. Two constants: to negate 1, as `with_sign` of `same_coset` negates
// what it is given, is no plainer.
pub fn sign_number(sign: bool) -> i64
    ensures { result ≡ sign_number sign }
{
    if sign {
        return 1;
    }
    -1
}

// The part of the lent space that an answer names: `length` letters from the place `start` on, and the empty part where
// they don't fit there.
pub fn word_part(out: &[i16], start: usize, length: usize) -> &[i16]
    ensures { result.now ≡ part_of out.now start length }
{
    match out.get(start..) {
        Some(rest) if length <= rest.len() => &rest[..length],
        _ => &[],
    }
}
