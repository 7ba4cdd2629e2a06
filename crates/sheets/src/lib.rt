// A sheet of pairs against one symbol: its tables are built once, and line by line the answers are those of single
// queries in the same word space.
//
// specs/Sheet.antt says what a sheet answers and leaves, specs/Meaning.antt what that means.
#![tactic(auto)]

ghost use Rattle.std.specs.Prelude.{◌≡◌, [], ◌∷◌, ◌++◌, ◌+◌, ◌*◌, ◌^◌, ◌≤◌, ◌<◌, length, drop, pos};
ghost use Rattle.call.specs.Refusal.{refusal_number, refusal_place};
ghost use Rattle.call.specs.Space.{zeros};
ghost use Rattle.call.specs.Inner.Fills.{Fills, made_if};
ghost use Rattle.word.specs.Answer.{four, found_if};
ghost use Rattle.coset.specs.Inner.Steps.{BuiltSteps};
ghost use Rattle.walk_runs.specs.Inner.Rounds.{Rounds};
ghost use Rattle.sheets.specs.Sheet.{pairs_in, bad_count, word_end, space_at, line_of, lines_to, line_steps};
ghost use Rattle.sheets.specs.Sheet.{sheet_steps};
ghost use Rattle.sheets.specs.Inner.Pairs.{pair_steps, SheetReady, row_at, Fitting};

use call::refusal::Refusal;
use symbol::check;
use word::{FoundWord, answer_by, four_at, pair_check, sign_number};

// The entries of a sheet, at most.
pub const ENTRIES: usize = 2048;

// Whether n entries are no sheet.
pub fn is_bad_count(n: usize) -> bool
    ensures { result ≡ bad_count n }
{
    n % 8 != 0 || ENTRIES < n
}

// Where the next word starts.
fn word_end(answer: Result<FoundWord, Refusal>, next: usize) -> usize
    requires { Fitting answer }
    ensures { result ≡ word_end answer next }
{
    match answer {
        Ok(
            FoundWord {
                start,
                letters: n,
                ..
            },
        ) => start + n,
        Err(_) => next,
    }
}

// A number among the signed ones. By `as`: `i64::try_from` would have an `Err` that no number here can meet.
fn signed(n: u64) -> i64
    requires { n < 2 ^ 63 }
    ensures { result ≡ pos n }
{
    n as i64
}

// Two numbers at the place i of a table of such rows. Two rows are a line of a sheet.
pub fn put_two(lines: &mut [i64], i: usize, a: i64, b: i64)
    requires { 2 * i + 2 ≤ length lines.old }
    ensures { lines.new ≡ row_at 2 i (a ∷ b ∷ []) lines.old }
{
    lines[2 * i] = a;
    lines[2 * i + 1] = b;
}

// The number and the place of a refusal there.
pub fn put_refusal(lines: &mut [i64], i: usize, refusal: Refusal)
    requires { (2 * i + 2 ≤ length lines.old) × (refusal_number refusal < 2 ^ 63) × (refusal_place refusal < 2 ^ 63) }
    ensures { lines.new ≡ row_at 2 i (pos (refusal_number refusal) ∷ pos (refusal_place refusal) ∷ [])
        lines.old }
{
    put_two(
        lines,
        i,
        signed(refusal.number()),
        signed(refusal.place() as u64),
    );
}

// The line of an answer at the place i of the table.
fn write_line(lines: &mut [i64], i: usize, answer: Result<FoundWord, Refusal>)
    requires { (4 * i + 4 ≤ length lines.old) × Fitting answer }
    ensures { lines.new ≡ row_at 4 i (line_of answer) lines.old }
{
    match answer {
        Ok(
            FoundWord {
                start,
                letters: n,
                plus: sign,
            },
        ) => {
            put_two(lines, 2 * i, 0, signed(start as u64));
            put_two(lines, 2 * i + 1, signed(n as u64), sign_number(sign));
        }
        Err(refusal) => {
            put_refusal(lines, 2 * i, refusal);
            put_two(lines, 2 * i + 1, 0, 0);
        }
    }
}

// The answer for the pair in eight entries, by the tables in the work space and those of rounds, which are kept for the
// next pair.
fn answer_pair(
    t: &[i64],
    v: usize,
    w: &[u16],
    r: &mut [u16],
    home: usize,
    pair: &[i64],
    out: &mut [i16],
    start: usize,
) -> Result<FoundWord, Refusal>
    requires { BuiltSteps t.now v w.now home × (length pair.now ≡ 8) × Rounds v t.now r.old }
    ensures fills { Fills
        (pair_steps v t.now (four pair.now 0) (four pair.now 4) out start)
        (found_if v t.now (four pair.now 0) (four pair.now 4) start) result }
    ensures rounds { Rounds v t.now r.new }
{
    let a = four_at(pair, 0);
    let b = four_at(pair, 4);
    pair_check(a, b)?;
    answer_by(t, v, w, r, home, a, b, out, start)
}

// The answers for all pairs, each in its own line.
fn answer_pairs(
    t: &[i64],
    v: usize,
    w: &[u16],
    r: &mut [u16],
    home: usize,
    p: &[i64],
    lines: &mut [i64],
    out: &mut [i16],
)
    requires { BuiltSteps t.now v w.now home × SheetReady v t.now p.now w.now
        × (4 * pairs_in p.now ≤ length lines.old) × Rounds v t.now r.old }
    ensures lines_after { lines.new
        ≡ lines_to v t.now p.now (length w.now) out.old
        (pairs_in p.now) ++ drop (4 * pairs_in p.now) lines.old }
    ensures out_after { out.new
        ≡ (space_at v t.now p.now (length w.now) out.old
        (pairs_in p.now)).letters }
{
    let mut next: usize = 0;
    for i in 0..p.len() / 8 {
        let answer = answer_pair(t, v, w, r, home, &p[8 * i..8 * i + 8], out, next);
        write_line(lines, i, answer);
        next = word_end(answer, next);
    }
}

// The answer where the sheet passes its checks and the work space is long enough, which is cleared after.
fn fill(
    v: usize,
    t: &[i64],
    p: &[i64],
    w: &mut [u16],
    lines: &mut [i64],
    out: &mut [i16],
) -> Result<usize, Refusal>
    requires { SheetReady v t.now p.now w.old }
    ensures fills { Fills (line_steps v t.now p.now (length w.old) lines out)
        (made_if (pairs_in p.now)) result }
    ensures w_after { w.new ≡ zeros (length w.old) }
{
    let n = p.len() / 8;
    if lines.len() / 4 < n {
        call::workspace::clear(w);
        return Err(Refusal::TooShort(n));
    }
    let home = coset::steps::build(t, v, w);
    let mut rounds = [0u16; 20481];
    answer_pairs(t, v, w, &mut rounds, home, p, lines, out);
    call::workspace::clear(w);
    Ok(n)
}

// The lines of all pairs in p, from the front of `lines`, and their words in `out`: 11 for a number of entries that is
// no sheet, then checks 1 to 7, then the work space, then the line table, counted in whole lines.
pub fn sheet(
    v: usize,
    t: &[i64],
    p: &[i64],
    w: &mut [u16],
    lines: &mut [i64],
    out: &mut [i16],
) -> Result<usize, Refusal>
    ensures { Fills (sheet_steps v t.now p.now w lines out)
        (made_if (pairs_in p.now)) result }
{
    if is_bad_count(p.len()) {
        return Err(Refusal::TooShort(ENTRIES));
    }
    check(v, t)?;
    call::room(call::workspace::WORK, w.len())?;
    fill(v, t, p, w, lines, out)
}
