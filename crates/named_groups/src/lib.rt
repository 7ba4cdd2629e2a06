// The congruence groups Γ0(N), Γ1(N) and Γ(N) by name: their tables, their symbols, and pair queries on them.
// specs/Group.antt says which groups have a name, specs/Answer.antt what the calls answer and leave, specs/Claim.antt
// what a query means.
#![tactic(auto)]

ghost use Rattle.std.specs.Prelude.{◌≡◌, ◌++◌, ◌≤◌, length};
ghost use Rattle.call.specs.Space.{work_length, zeros};
ghost use Rattle.call.specs.Call.{stores};
ghost use Rattle.call.specs.Inner.Fills.{Fills, made_if};
ghost use Rattle.congruence.specs.Index.{family_index};
ghost use Rattle.congruence.specs.Cosets.{family_s, family_r};
ghost use Rattle.congruence_tables.specs.Inner.Held.{Group};
ghost use Rattle.import_rule.specs.Symbol.{ruled_by};
ghost use Rattle.import_symbol.specs.Answer.{order_by};
ghost use Rattle.import_call.specs.Import.{needed_vertices, symbol_into};
ghost use Rattle.named_groups.specs.Group.{family_of, GroupVerdict};
ghost use Rattle.named_groups.specs.Answer.{named_tables_steps, named_rule, named_symbol_steps};
ghost use Rattle.named_groups.specs.Answer.{ruled_steps, named_query_steps, ruled_if};
ghost use Rattle.named_groups.specs.Inner.Ready.{QueryReady};

use call::refusal::Refusal;
use congruence::Family;
use family_index::family_index;
use word::{FoundWord, pair_check};

// The family with the number k.
pub fn family_of(k: u64) -> Family
    ensures { result ≡ family_of k }
{
    match k {
        0 => Family::Gamma0,
        1 => Family::Gamma1,
        _ => Family::Gamma,
    }
}

// The checks 20 and 21.
pub fn check(k: u64, n: u64) -> Result<(), Refusal>
    ensures { GroupVerdict k n result }
{
    if 2 < k || n < 1 || 1000 < n {
        return Err(Refusal::BadLevel);
    }
    if 3066 < family_index(family_of(k), n) {
        return Err(Refusal::LargeIndex);
    }
    Ok(())
}

// The tables at the front of s and r, where there is room for both.
fn fill_tables(
    f: Family,
    n: u64,
    w: &mut [u16],
    s: &mut [u32],
    r: &mut [u32],
) -> Result<usize, Refusal>
    requires { Group f n × (work_length ≤ length w.old) }
    ensures { Fills (stores (family_s f n) s ++ stores (family_r f n) r) (made_if (family_index f n)) result }
{
    let k = family_index(f, n) as usize;
    call::room(k, s.len())?;
    call::room(k, r.len())?;
    congruence_tables::tables(f, n, w, s, r);
    Ok(k)
}

// The same; the work space is cleared after.
fn make_tables(
    f: Family,
    n: u64,
    w: &mut [u16],
    s: &mut [u32],
    r: &mut [u32],
) -> Result<usize, Refusal>
    requires { Group f n × (work_length ≤ length w.old) }
    ensures fills { Fills (stores (family_s f n) s ++ stores (family_r f n) r) (made_if (family_index f n)) result }
    ensures w_after { w.new ≡ zeros (length w.old) }
{
    let made = fill_tables(f, n, w, s, r);
    call::workspace::clear(w);
    made
}

// The tables of S and R of the group, each at the front of its space: 20, 21, then the work space, then the spaces for
// S and R.
pub fn named_tables(
    k: u64,
    n: u64,
    w: &mut [u16],
    s: &mut [u32],
    r: &mut [u32],
) -> Result<usize, Refusal>
    ensures { Fills (named_tables_steps k n w s r) (made_if (family_index (family_of k) n)) result }
{
    check(k, n)?;
    call::room(call::workspace::WORK, w.len())?;
    make_tables(family_of(k), n, w, s, r)
}

// The symbol of the group's tables, by the wide rule or by the rule; the work space is cleared after.
fn make_symbol(
    f: Family,
    n: u64,
    w: &mut [u16],
    out: &mut [i64],
    wide: bool,
) -> Result<usize, Refusal>
    requires { Group f n × (work_length ≤ length w.old) }
    ensures fills { Fills (symbol_into (order_by wide) (family_s f n) (family_r f n) out)
        (made_if (needed_vertices (family_r f n))) result }
    ensures w_after { w.new ≡ zeros (length w.old) }
{
    let mut s = [0u32; 3066];
    let mut r = [0u32; 3066];
    let k = congruence_tables::tables(f, n, w, &mut s, &mut r);
    import_call::import_by(&s[..k], &r[..k], w, out, wide)
}

// The symbol of the group, by the wide rule or by the rule, its table at the front of out: 20, 21, then the work space,
// then out, then 16.
pub fn named_symbol_by(
    k: u64,
    n: u64,
    w: &mut [u16],
    out: &mut [i64],
    wide: bool,
) -> Result<usize, Refusal>
    ensures { Fills (named_symbol_steps (order_by wide) k n w out)
        (made_if (needed_vertices (family_r (family_of k) n))) result }
{
    check(k, n)?;
    call::room(call::workspace::WORK, w.len())?;
    make_symbol(family_of(k), n, w, out, wide)
}

// The answer for an accepted group and pair: by the symbol that the rule gives, or 16. The work space is cleared after.
fn answer_query(
    f: Family,
    n: u64,
    a: [i64; 4],
    b: [i64; 4],
    w: &mut [u16],
    out: &mut [i16],
    start: usize,
    wide: bool,
) -> Result<FoundWord, Refusal>
    requires { QueryReady f n a b w.old }
    ensures fills { Fills (ruled_steps (ruled_by (order_by wide) (family_s f n) (family_r f n)) a b out start)
        (ruled_if (ruled_by (order_by wide) (family_s f n) (family_r f n)) a b start) result }
    ensures w_after { w.new ≡ zeros (length w.old) }
{
    let mut t = [0i64; 3070];
    let v = make_symbol(f, n, w, &mut t, wide)?;
    word::query(v, &t[..3 * v + 1], a, b, w, out, start)
}

// A word in the generators of the group's symbol, by the wide rule or by the rule, that takes A to B up to sign: 20,
// 21, then 8 and 9, A before B under each, then the work space, then 16, then 10, then the word space.
pub fn named_query_by(
    k: u64,
    n: u64,
    a: [i64; 4],
    b: [i64; 4],
    w: &mut [u16],
    out: &mut [i16],
    start: usize,
    wide: bool,
) -> Result<FoundWord, Refusal>
    ensures { Fills (named_query_steps (order_by wide) k n a b w out start)
        (ruled_if (named_rule (order_by wide) k n) a b start) result }
{
    check(k, n)?;
    pair_check(a, b)?;
    call::room(call::workspace::WORK, w.len())?;
    answer_query(family_of(k), n, a, b, w, out, start, wide)
}
