// Every coset knows its cusp: the number of its cusp, and its steps of T from the cusp's smallest point.
// specs/Record.antt says what these are and how T moves them, specs/Answer.antt what `cusps` answers and leaves.
#![tactic(auto)]

ghost use Rattle.std.specs.Prelude.{◌≡◌, ◌++◌, ◌≤◌, ◌<◌, length};
ghost use Rattle.call.specs.Space.{work_length, zeros, entries};
ghost use Rattle.call.specs.Call.{stores};
ghost use Rattle.call.specs.Inner.Fills.{Fills, made_if};
ghost use Rattle.symbol.specs.Symbol.{IsSymbol};
ghost use Rattle.figures.specs.Inner.Scan.{held_t};
ghost use Rattle.coset.specs.Tables.{index_of};
ghost use Rattle.cusp_record.specs.Answer.{cusp_column, step_column, cusps_call};
ghost use Rattle.cusp_record.specs.Inner.Fill.{CUSPS, STEPS, ByCusps, AtCusp, OnCusp, RecordFilled, SymbolRecord};

use call::refusal::Refusal;
use coset::arrange::arrange;
use figures::cusp_widths;
use numbering::{ORDER, WIDTHS, copy_out};
use pairing::admit::admit;

// Where the work space holds the cusps and the steps: the steps below all other tables, so that those of S, R and T
// stay.
pub const CUSPS: usize = 12288;

pub const STEPS: usize = 0;

// A cusp: its number, the place where it begins in the list of points by cusps, and its width.
#[derive(Clone, Copy)]
pub struct Cusp {
    pub number: usize,
    pub first: usize,
    pub width: usize,
}

// Where c ends at y, the cusp behind it; else c.
pub fn advance(w: &[u16], n: usize, k: usize, c: Cusp, y: usize) -> Cusp
    requires { ByCusps (held_t n w.now) n k w.now × AtCusp (held_t n w.now) c y × (y < n) }
    ensures { OnCusp (held_t n w.now) result y }
{
    let end = c.first + c.width;
    if y == end {
        let number = c.number + 1;
        return Cusp {
            number,
            first: end,
            width: call::workspace::index(w[WIDTHS + number]),
        };
    }
    c
}

// The cusp and the steps of each point, in one pass over the points by cusps.
fn enter_cusps(w: &mut [u16], n: usize, k: usize)
    requires { ByCusps (held_t n w.old) n k w.old }
    ensures { RecordFilled (held_t n w.old) n k w.old w.new }
{
    let width = call::workspace::index(w[WIDTHS]);
    let mut c = Cusp {
        number: 0,
        first: 0,
        width,
    };
    for y in 0..n {
        c = advance(w, n, k, c, y);
        let x = call::workspace::index(w[ORDER + y]);
        w[CUSPS + x] = c.number as u16;
        w[STEPS + x] = (y - c.first) as u16;
    }
}

// The coset record of an accepted symbol in the work space, how many cosets there are: the tables of S, R and T, the
// cusps and the steps, and the points by cusps.
pub fn arrange_record(v: usize, t: &[i64], w: &mut [u16]) -> usize
    requires { IsSymbol v t.now × (work_length ≤ length w.old) }
    ensures { SymbolRecord v t.now w.old w.new result }
{
    let n = arrange(v, t, w);
    let k = cusp_widths(w, n);
    enter_cusps(w, n, k);
    n
}

// Copies the cusps and the steps of n cosets, where there is room for both.
fn copy_columns(w: &[u16], n: usize, cusps: &mut [u32], steps: &mut [u32]) -> Result<usize, Refusal>
    requires { (n ≤ 4096) × (work_length ≤ length w.now) }
    ensures { Fills (stores (entries CUSPS n w.now) cusps
        ++ stores (entries STEPS n w.now) steps) (made_if n) result }
{
    call::room(n, cusps.len())?;
    call::room(n, steps.len())?;
    copy_out(w, CUSPS, n, cusps);
    copy_out(w, STEPS, n, steps);
    Ok(n)
}

// The same from an accepted symbol; the work space is cleared after.
fn make_cusps(
    v: usize,
    t: &[i64],
    w: &mut [u16],
    cusps: &mut [u32],
    steps: &mut [u32],
) -> Result<usize, Refusal>
    requires { IsSymbol v t.now × (work_length ≤ length w.old) }
    ensures fills { Fills (stores (cusp_column v t.now) cusps
        ++ stores (step_column v t.now) steps) (made_if (index_of v t.now)) result }
    ensures w_after { w.new ≡ zeros (length w.old) }
{
    let n = arrange_record(v, t, w);
    let made = copy_columns(w, n, cusps, steps);
    call::workspace::clear(w);
    made
}

// The cusp of each coset of the symbol in t and its steps of T from the cusp's smallest point, each at the front of its
// space: checks 1 to 7, then the work space, then the result spaces for cusps and for steps.
pub fn cusps(
    v: usize,
    t: &[i64],
    w: &mut [u16],
    cusps: &mut [u32],
    steps: &mut [u32],
) -> Result<usize, Refusal>
    ensures { Fills (cusps_call v t.now w cusps steps).steps
        (made_if (index_of v t.now)) result }
{
    admit(v, t, w.len())?;
    make_cusps(v, t, w, cusps, steps)
}
