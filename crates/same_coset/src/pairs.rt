// Many pairs against one symbol: its tables are built once, and line by line the answers are those of the single call.
ghost use Rattle.std.specs.Prelude.{◌≡◌, ◌+◌, ◌*◌, ◌≤◌, length};
ghost use Rattle.call.specs.Space.{zeros};
ghost use Rattle.call.specs.Inner.Fills.{Fills, made_if};
ghost use Rattle.word.specs.Answer.{four};
ghost use Rattle.sheets.specs.Sheet.{pairs_in};
ghost use Rattle.sheets.specs.Inner.Pairs.{row_at};
ghost use Rattle.same_coset.specs.Inner.Places.{Prepared};
ghost use Rattle.same_coset.specs.Pairs.{ragged, coset_line, lines_into, same_cosets_steps};
ghost use Rattle.same_coset.specs.Inner.Ready.{PairShared, LineFits, PairsShared, PairsReady};

use crate::share;
use crate::t_runs::prepare;
use call::refusal::Refusal;
use sheets::{put_refusal, put_two};
use symbol::check;
use word::{four_at, pair_check};

// Whether n entries are no number of whole pairs.
fn is_ragged(n: usize) -> bool
    ensures { result ≡ ragged n }
{
    n % 8 != 0
}

// The line of an answer at the place i of the table.
fn write_line(lines: &mut [i64], i: usize, answer: Result<bool, Refusal>)
    requires { (2 * i + 2 ≤ length lines.old) × LineFits answer }
    ensures { lines.new ≡ row_at 2 i (coset_line answer) lines.old }
{
    match answer {
        Ok(true) => put_two(lines, i, 0, 1),
        Ok(false) => put_two(lines, i, 0, 0),
        Err(refusal) => put_refusal(lines, i, refusal),
    }
}

// The answer for the pair in eight entries, by the tables in the work space.
fn answer_pair(w: &[u16], n: usize, pair: &[i64]) -> Result<bool, Refusal>
    requires { Prepared n w.now × (length pair.now ≡ 8) }
    ensures pair_shared { PairShared n w.now (four pair.now 0) (four pair.now 4) result }
    ensures line_fits { LineFits result }
{
    let a = four_at(pair, 0);
    let b = four_at(pair, 4);
    pair_check(a, b)?;
    Ok(share(w, n, a, b))
}

// The answers for all pairs, each in its own line.
fn answer_pairs(w: &[u16], n: usize, p: &[i64], lines: &mut [i64])
    requires { Prepared n w.now × (2 * pairs_in p.now ≤ length lines.old) }
    ensures { PairsShared n w.now p.now (pairs_in p.now)
        lines.old lines.new }
{
    for i in 0..p.len() / 8 {
        let answer = answer_pair(w, n, &p[8 * i..8 * i + 8]);
        write_line(lines, i, answer);
    }
}

// The answer where the call passes its checks and the work space is long enough, which is cleared after.
fn fill(v: usize, t: &[i64], p: &[i64], w: &mut [u16], lines: &mut [i64]) -> Result<usize, Refusal>
    requires { PairsReady v t.now p.now w.old }
    ensures fills { Fills (lines_into v t.now p.now (length w.old) lines)
        (made_if (pairs_in p.now)) result }
    ensures w_after { w.new ≡ zeros (length w.old) }
{
    let k = p.len() / 8;
    if lines.len() / 2 < k {
        call::workspace::clear(w);
        return Err(Refusal::TooShort(k));
    }
    let n = prepare(v, t, w);
    answer_pairs(w, n, p, lines);
    call::workspace::clear(w);
    Ok(k)
}

// For each pair in p whether A and B share a right coset, in its line: 11 for entries that are no number of whole
// pairs, then checks 1 to 7, then the work space, then the line table, counted in whole lines.
pub fn same_cosets(
    v: usize,
    t: &[i64],
    p: &[i64],
    w: &mut [u16],
    lines: &mut [i64],
) -> Result<usize, Refusal>
    ensures { Fills (same_cosets_steps v t.now p.now w lines)
        (made_if (pairs_in p.now)) result }
{
    if is_ragged(p.len()) {
        return Err(Refusal::TooShort(8 * (p.len() / 8 + 1)));
    }
    check(v, t)?;
    call::room(call::workspace::WORK, w.len())?;
    fill(v, t, p, w, lines)
}
