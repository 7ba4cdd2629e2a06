// Two free labels of a symbol exchange partners: specs/Exchange.antt says what the altered symbol is,
// specs/Theorem.antt what holds of it and of further exchanges, specs/Answer.antt what the calls answer and leave.
#![tactic(auto)]

ghost use Rattle.std.specs.Prelude.{◌≡◌, true, ◌++◌, ◌+◌, ◌*◌, ◌≤◌, ◌<◌, length, drop};
ghost use Rattle.call.specs.Space.{work_length, zeros};
ghost use Rattle.basics.specs.Count.{first};
ghost use Rattle.call.specs.Call.{work, stores};
ghost use Rattle.call.specs.Inner.Fills.{Fills, made_if};
ghost use Rattle.symbol.specs.Table.{pairing_entries};
ghost use Rattle.symbol.specs.Check.{eq_z};
ghost use Rattle.symbol.specs.Symbol.{IsSymbol};
ghost use Rattle.coset.specs.Answer.{widths_of, figures_of};
ghost use Rattle.coset.specs.Inner.Survey.{figured_if};
ghost use Rattle.partner_exchange.specs.Exchange.{first_side, second_side, exchanged, is_free_label, check23};
ghost use Rattle.partner_exchange.specs.Answer.{exchange_check, exchange_call, preview_steps};
ghost use Rattle.partner_exchange.specs.Inner.Ready.{label_test, Exchangeable};

use call::refusal::Refusal;
use coset::{copy_widths, survey};
use figures::FigureRecord;
use symbol::check;

// Whether two numbers are the same.
fn equal(x: i64, y: i64) -> bool
    ensures { result ≡ eq_z x y }
{
    x == y
}

// Whether side k has the pairing x and isn't the side `skip`.
fn has_label(p: &[i64], x: i64, skip: usize, k: usize) -> bool
    requires { k < length p.now }
    ensures { result ≡ label_test p.now x skip k }
{
    if k == skip {
        return false;
    }
    equal(p[k], x)
}

// The first of the v + 1 sides that has the pairing x, where the side `skip` is passed over; v + 1 if there is none.
fn find_side(v: usize, p: &[i64], x: i64, skip: usize) -> usize
    requires { (v ≤ 1023) × (v + 1 ≤ length p.now) }
    ensures { result ≡ first (label_test p.now x skip) (v + 1) }
{
    for k in 0..v + 1 {
        if has_label(p, x, skip, k) {
            return k;
        }
    }
    v + 1
}

// Whether x is the free label of a side.
fn is_free_label(v: usize, p: &[i64], x: i64) -> bool
    requires { (v ≤ 1023) × (v + 1 ≤ length p.now) }
    ensures { result ≡ is_free_label v p.now x }
{
    if 0 < x {
        return find_side(v, p, x, v + 1) <= v;
    }
    false
}

// Check 23, on the pairings.
fn check_labels(v: usize, p: &[i64], x: i64, y: i64) -> Result<(), Refusal>
    requires { (v ≤ 1023) × (v + 1 ≤ length p.now) }
    ensures { result ≡ check23 v p.now x y }
{
    if !is_free_label(v, p, x) {
        return Err(Refusal::NotFreeLabel(0));
    }
    if !is_free_label(v, p, y) {
        return Err(Refusal::NotFreeLabel(1));
    }
    if equal(x, y) {
        return Err(Refusal::NotFreeLabel(1));
    }
    Ok(())
}

// Whether t has a symbol in which x and y can be exchanged.
fn exchange_check(v: usize, t: &[i64], x: i64, y: i64) -> Result<(), Refusal>
    ensures { result ≡ exchange_check v t.now x y }
{
    check(v, t)?;
    check_labels(v, &t[2 * v..], x, y)
}

// The table t at the front of out.
fn copy_table(t: &[i64], out: &mut [i64])
    requires { length t.now ≤ length out.old }
    ensures { out.new ≡ t.now ++ drop (length t.now) out.old }
{
    for j in 0..t.len() {
        out[j] = t[j];
    }
}

// The second side with the free label x.
fn second_side(v: usize, t: &[i64], p: &[i64], x: i64) -> usize
    requires { IsSymbol v t.now × (p.now ≡ pairing_entries v t.now) × (is_free_label v p.now x ≡ true) }
    ensures { (result ≡ second_side v t.now x) × (result ≤ v) }
{
    let a = find_side(v, p, x, v + 1);
    find_side(v, p, x, a)
}

// The exchanged symbol at the front of out.
fn put_exchanged(v: usize, t: &[i64], x: i64, y: i64, out: &mut [i64])
    requires { Exchangeable v t.now x y × (3 * v + 1 ≤ length out.old) }
    ensures { out.new ≡ exchanged v t.now x y ++ drop (3 * v + 1) out.old }
{
    let b = second_side(v, t, &t[2 * v..], x);
    let d = second_side(v, t, &t[2 * v..], y);
    copy_table(t, out);
    out[2 * v + b] = y;
    out[2 * v + d] = x;
}

// The same where there is room for it.
fn exchange_in_room(v: usize, t: &[i64], x: i64, y: i64, out: &mut [i64]) -> Result<usize, Refusal>
    requires { Exchangeable v t.now x y }
    ensures { Fills (stores (exchanged v t.now x y) out) (made_if v) result }
{
    let n = 3 * v + 1;
    call::room(n, out.len())?;
    put_exchanged(v, t, x, y, out);
    Ok(v)
}

// The symbol in t, with the second sides of the labels x and y exchanged, goes to the front of out: checks 1 to 7, then
// 23, then out.
pub fn exchange(v: usize, t: &[i64], x: i64, y: i64, out: &mut [i64]) -> Result<usize, Refusal>
    ensures { Fills (exchange_call v t.now x y out).steps (made_if v) result }
{
    exchange_check(v, t, x, y)?;
    exchange_in_room(v, t, x, y, out)
}

// The figures of an accepted symbol, with its widths at the front of out; the work space is cleared after.
fn ask(v: usize, u: &[i64], w: &mut [u16], out: &mut [u32]) -> Result<FigureRecord, Refusal>
    requires { IsSymbol v u.now × (work_length ≤ length w.old) }
    ensures fills { Fills (stores (widths_of v u.now) out) (figured_if (figures_of v u.now)) result }
    ensures w_after { w.new ≡ zeros (length w.old) }
{
    let f = survey(v, u, w);
    let made = copy_widths(w, f.cusps, out);
    call::workspace::clear(w);
    made?;
    Ok(f)
}

// The same of the exchanged symbol, which is made in an array and is gone after.
fn preview_exchanged(
    v: usize,
    t: &[i64],
    x: i64,
    y: i64,
    w: &mut [u16],
    out: &mut [u32],
) -> Result<FigureRecord, Refusal>
    requires { Exchangeable v t.now x y }
    ensures { Fills (work w ++ stores (widths_of v (exchanged v t.now x y)) out)
        (figured_if (figures_of v (exchanged v t.now x y))) result }
{
    call::room(call::workspace::WORK, w.len())?;
    let mut u = [0i64; 3070];
    put_exchanged(v, t, x, y, &mut u);
    ask(v, &u[..3 * v + 1], w, out)
}

// The figures of the symbol that `exchange` would make, and the widths of its cusps at the front of out: checks 1 to 7,
// then 23, then the work space, then out. No symbol is written.
pub fn preview(
    v: usize,
    t: &[i64],
    x: i64,
    y: i64,
    w: &mut [u16],
    out: &mut [u32],
) -> Result<FigureRecord, Refusal>
    ensures { Fills (preview_steps v t.now x y w out)
        (figured_if (figures_of v (exchanged v t.now x y))) result }
{
    exchange_check(v, t, x, y)?;
    preview_exchanged(v, t, x, y, w, out)
}
