// The generators of a symbol: leading sides, and the call that lists the generators with their kinds.
ghost use Rattle.std.specs.Prelude.{◌≡◌, ◌+◌, ◌*◌, ◌≤◌, ◌<◌, length, drop, true, ◌∷◌, ◌++◌};
ghost use Rattle.matrix.specs.Matrix.{of_list, to_list};
ghost use Rattle.call.specs.Space.{work_length, zeros};
ghost use Rattle.basics.specs.Count.{count};
ghost use Rattle.call.specs.Call.{stores};
ghost use Rattle.call.specs.Inner.Fills.{Fills, made_if};
ghost use Rattle.symbol.specs.Symbol.{IsSymbol};
ghost use Rattle.pairing.specs.Generator.{is_leader_in, is_leader, generator, generator_table, leaders};
ghost use Rattle.pairing.specs.Generator.{generators_call};
ghost use Rattle.pairing.specs.Inner.Work.{Partnered, PartnersReady, put_row, RowsTo, SideListed};

use super::admit::admit;
use super::partner::{PARTNER, kind_at, pair_sides};
use call::refusal::Refusal;
use symbol::{Pairing, Side, read_pairing};

// Whether side i is the leftmost side of its generator.
fn leads_at(v: usize, p: &[i64], w: &[u16], i: usize) -> bool
    requires { (v ≤ 1023) × (i ≤ v) × (v + 1 ≤ length p.now) × Partnered v p.now w.now }
    ensures { result ≡ is_leader_in v p.now i }
{
    match read_pairing(v, p[i]) {
        Pairing::Even | Pairing::Odd => true,
        Pairing::Free(_) => i < call::workspace::index(w[PARTNER + i]),
        Pairing::Bad => false,
    }
}

// How many generators there are.
fn count_leaders(v: usize, p: &[i64], w: &[u16]) -> usize
    requires { (v ≤ 1023) × (v + 1 ≤ length p.now) × Partnered v p.now w.now }
    ensures { result ≡ count (is_leader_in v p.now) (v + 1) }
{
    let mut n = 0;
    for i in 0..v + 1 {
        if leads_at(v, p, w, i) {
            n += 1;
        }
    }
    n
}

// The generator that side i leads.
fn generator_at(v: usize, t: &[i64], p: &[i64], w: &[u16], i: usize) -> [i64; 4]
    requires { PartnersReady v t.now p.now w.now × (i ≤ v) }
    ensures { result ≡ to_list (generator v t.now i) }
{
    let side = Side::at(v, t, i);
    match read_pairing(v, p[i]) {
        Pairing::Even => side.even(),
        Pairing::Odd => side.odd(),
        Pairing::Free(_) => {
            let other = Side::at(v, t, call::workspace::index(w[PARTNER + i]));
            side.free(other)
        }
        Pairing::Bad => matrix::identity(),
    }
}

// Writes a kind and a matrix as the row n of out.
fn put_row(out: &mut [i64], n: usize, kind: i64, m: [i64; 4])
    requires { (n ≤ 1024) × (5 * n + 5 ≤ length out.old) }
    ensures { out.new ≡ put_row n (kind ∷ to_list (of_list m)) out.old }
{
    let at = 5 * n;
    out[at] = kind;
    out[at + 1..at + 5].copy_from_slice(&m);
}

// Lists the generator that side i leads behind n others, if it leads one: how many there are then.
fn list_side(
    v: usize,
    t: &[i64],
    p: &[i64],
    w: &[u16],
    i: usize,
    n: usize,
    out: &mut [i64],
) -> usize
    requires { PartnersReady v t.now p.now w.now × (i ≤ v) × (n ≤ i)
        × (is_leader v t.now i ≡ true → 5 * n + 5 ≤ length out.old) }
    ensures { SideListed v t.now i n result out.old out.new }
{
    if leads_at(v, p, w, i) {
        put_row(out, n, kind_at(v, p, i), generator_at(v, t, p, w, i));
        return n + 1;
    }
    n
}

// Lists all generators from the front of out, which has room for them.
fn list_all(v: usize, t: &[i64], p: &[i64], w: &[u16], out: &mut [i64])
    requires { PartnersReady v t.now p.now w.now
        × (5 * count (is_leader v t.now) (v + 1) ≤ length out.old) }
    ensures { out.new ≡ generator_table v t.now
        ++ drop (5 * count (is_leader v t.now) (v + 1)) out.old }
{
    let mut n = 0;
    for i in 0..v + 1 {
        n = list_side(v, t, p, w, i, n, out);
    }
}

// Lists the generators where out has room for them.
fn list_if_room(
    v: usize,
    t: &[i64],
    p: &[i64],
    w: &[u16],
    out: &mut [i64],
) -> Result<usize, Refusal>
    requires { PartnersReady v t.now p.now w.now }
    ensures { Fills (stores (generator_table v t.now) out)
        (made_if (length (leaders v t.now))) result }
{
    let n = count_leaders(v, p, w);
    let needed = 5 * n;
    if out.len() < needed {
        return Err(Refusal::TooShort(needed));
    }
    list_all(v, t, p, w, out);
    Ok(n)
}

// The same for an accepted symbol; the work space is cleared before and after.
fn list_accepted(v: usize, t: &[i64], w: &mut [u16], out: &mut [i64]) -> Result<usize, Refusal>
    requires { IsSymbol v t.now × (work_length ≤ length w.old) }
    ensures fills { Fills (stores (generator_table v t.now) out)
        (made_if (length (leaders v t.now))) result }
    ensures w_after { w.new ≡ zeros (length w.old) }
{
    let p = &t[2 * v..];
    call::workspace::clear(w);
    pair_sides(v, p, w);
    let made = list_if_room(v, t, p, w, out);
    call::workspace::clear(w);
    made
}

// The generators of the symbol in t with their kinds, from the front of out: checks 1 to 7, then the work space, then
// the result space.
pub fn generators(v: usize, t: &[i64], w: &mut [u16], out: &mut [i64]) -> Result<usize, Refusal>
    ensures { Fills (generators_call v t.now w out).steps
        (made_if (length (leaders v t.now))) result }
{
    admit(v, t, w.len())?;
    list_accepted(v, t, w, out)
}
