// The cosets of the subgroup that a symbol's side pairings generate: specs/Tables.antt has their numbering and the
// tables of S, R and T, specs/Theorem.antt says what the tables are tables of, and specs/Answer.antt has the calls.
// specs/Positions.antt has what a walk over the positions needs, and steps.rt builds it.
#![tactic(auto)]

ghost use Rattle.std.specs.Prelude.{Ok, ◌≡◌, ◌++◌, ◌≤◌, length};
ghost use Rattle.call.specs.Space.{work_length, zeros, entries};
ghost use Rattle.call.specs.Call.{asks, work, stores};
ghost use Rattle.call.specs.Inner.Fills.{Fills, made_if};
ghost use Rattle.symbol.specs.Check.{symbol_check};
ghost use Rattle.symbol.specs.Symbol.{IsSymbol};
ghost use Rattle.numbering.specs.Inner.Space.{S_TABLE, R_TABLE, T_TABLE, WIDTHS};
ghost use Rattle.coset.specs.Tables.{index_of, table_s, table_r, table_t};
ghost use Rattle.coset.specs.Answer.{widths_of, figures_of, tables_call, widths_call};
ghost use Rattle.coset.specs.Inner.Survey.{Surveyed, figured_if};

use arrange::arrange;
use call::refusal::Refusal;
use figures::{FigureRecord, cusp_widths, figures_of};
use numbering::{R_TABLE, S_TABLE, T_TABLE, WIDTHS, copy_out};
use pairing::admit::admit;

pub mod arrange;
pub mod steps;

// Copies the tables of n cosets, where there is room for all three.
pub fn copy_tables(
    w: &[u16],
    n: usize,
    s: &mut [u32],
    r: &mut [u32],
    u: &mut [u32],
) -> Result<usize, Refusal>
    requires { (n ≤ 4096) × (work_length ≤ length w.now) }
    ensures { Fills (stores (entries S_TABLE n w.now) s
        ++ stores (entries R_TABLE n w.now) r
        ++ stores (entries T_TABLE n w.now) u) (made_if n) result }
{
    call::room(n, s.len())?;
    call::room(n, r.len())?;
    call::room(n, u.len())?;
    copy_out(w, S_TABLE, n, s);
    copy_out(w, R_TABLE, n, r);
    copy_out(w, T_TABLE, n, u);
    Ok(n)
}

// The same from an accepted symbol; the work space is cleared after.
fn make_tables(
    v: usize,
    t: &[i64],
    w: &mut [u16],
    s: &mut [u32],
    r: &mut [u32],
    u: &mut [u32],
) -> Result<usize, Refusal>
    requires { IsSymbol v t.now × (work_length ≤ length w.old) }
    ensures fills { Fills (stores (table_s v t.now) s ++ stores (table_r v t.now) r
        ++ stores (table_t v t.now) u) (made_if (index_of v t.now)) result }
    ensures w_after { w.new ≡ zeros (length w.old) }
{
    let n = arrange(v, t, w);
    let made = copy_tables(w, n, s, r, u);
    call::workspace::clear(w);
    made
}

// The tables of S, R and T of the symbol in t, each at the front of its space: checks 1 to 7, then the work space,
// then the result spaces for S, R and T.
pub fn tables(
    v: usize,
    t: &[i64],
    w: &mut [u16],
    s: &mut [u32],
    r: &mut [u32],
    u: &mut [u32],
) -> Result<usize, Refusal>
    ensures { Fills (tables_call v t.now w s r u).steps (made_if (index_of v t.now)) result }
{
    admit(v, t, w.len())?;
    make_tables(v, t, w, s, r, u)
}

// Copies the widths of k cusps, where there is room.
pub fn copy_widths(w: &[u16], k: usize, out: &mut [u32]) -> Result<usize, Refusal>
    requires { (k ≤ 4096) × (work_length ≤ length w.now) }
    ensures { Fills (stores (entries WIDTHS k w.now) out) (made_if k) result }
{
    call::room(k, out.len())?;
    copy_out(w, WIDTHS, k, out);
    Ok(k)
}

// The same from an accepted symbol; the work space is cleared after.
fn make_widths(v: usize, t: &[i64], w: &mut [u16], out: &mut [u32]) -> Result<usize, Refusal>
    requires { IsSymbol v t.now × (work_length ≤ length w.old) }
    ensures fills { Fills (stores (widths_of v t.now) out)
        (made_if (length (widths_of v t.now))) result }
    ensures w_after { w.new ≡ zeros (length w.old) }
{
    let n = arrange(v, t, w);
    let k = cusp_widths(w, n);
    let made = copy_widths(w, k, out);
    call::workspace::clear(w);
    made
}

// The widths of the cusps of the symbol in t, by smallest point, at the front of out: checks 1 to 7, then the work
// space, then out.
pub fn widths(v: usize, t: &[i64], w: &mut [u16], out: &mut [u32]) -> Result<usize, Refusal>
    ensures { Fills (widths_call v t.now w out).steps
        (made_if (length (widths_of v t.now))) result }
{
    admit(v, t, w.len())?;
    make_widths(v, t, w, out)
}

// The figures of an accepted symbol. The widths of its cusps and its tables of S, R and T stay in the work space, for
// whoever reads them there.
pub fn survey(v: usize, t: &[i64], w: &mut [u16]) -> FigureRecord
    requires { IsSymbol v t.now × (work_length ≤ length w.old) }
    ensures { Surveyed v t.now w.old w.new result }
{
    let n = arrange(v, t, w);
    figures_of(w, n)
}

// The figures of an accepted symbol; the work space is cleared after.
fn make_figures(v: usize, t: &[i64], w: &mut [u16]) -> Result<FigureRecord, Refusal>
    requires { IsSymbol v t.now × (work_length ≤ length w.old) }
    ensures value { result ≡ Ok (figures_of v t.now) }
    ensures w_after { w.new ≡ zeros (length w.old) }
{
    let f = survey(v, t, w);
    call::workspace::clear(w);
    Ok(f)
}

// The figures of the symbol in t: checks 1 to 7, then the work space. 17 is for the level alone; 18, for the genus
// alone, is never answered.
pub fn figures(v: usize, t: &[i64], w: &mut [u16]) -> Result<FigureRecord, Refusal>
    ensures { Fills (asks (symbol_check v t.now) ++ work w)
        (figured_if (figures_of v t.now)) result }
{
    admit(v, t, w.len())?;
    make_figures(v, t, w)
}
