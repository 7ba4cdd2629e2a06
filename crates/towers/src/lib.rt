// Towers: symbols in one lent table, each naming an entry listed before it that should contain it. specs/Answer.antt
// says what the call answers and leaves, specs/Meaning.antt what that means.
#![tactic(auto)]

ghost use Rattle.std.specs.Prelude.{◌≡◌, ◌≤◌, ◌<◌, length};
ghost use Rattle.basics.specs.Count.{first};
ghost use Rattle.call.specs.Space.{zeros};
ghost use Rattle.containment.specs.TwoSymbols.{contained};
ghost use Rattle.call.specs.Refusal.{Checked};
ghost use Rattle.call.specs.Inner.Fills.{Fills};
ghost use Rattle.towers.specs.Tower.{or_zero, entry_check, vertices_at, table_at, symbols_check, listed_before};
ghost use Rattle.towers.specs.Tower.{unlisted, named_at, claim_holds, claim_fails, claims_check};
ghost use Rattle.towers.specs.Meaning.{AreSymbols};
ghost use Rattle.towers.specs.Answer.{tower_call};
ghost use Rattle.towers.specs.Inner.Entries.{EntriesWhole, StartsAt, EndsAt, ClaimReady};

use call::refusal::Refusal;
use containment::inclusion::contains_accepted;
use symbol::check;

// The entries of a tower, at most.
pub const ENTRIES: usize = 64;

// A number as a natural one; a negative number as 0.
fn or_zero(x: i64) -> usize
    ensures { result ≡ or_zero x }
{
    if x < 1 {
        return 0;
    }
    x as usize
}

// Where the table of the entry ends with which l begins. The test keeps 3v + 3 from being reckoned where l is shorter
// than that.
fn table_end(l: &[i64], last: bool) -> usize
    requires { 2 ≤ length l.now }
    ensures { EndsAt last l.now result }
{
    if last {
        return l.len();
    }
    let v = or_zero(l[1]);
    if l.len() / 3 <= v {
        return l.len();
    }
    3 * v + 3
}

// The checks of the entry with which l begins.
fn check_entry(l: &[i64], last: bool) -> Result<(), Refusal>
    ensures { result ≡ entry_check last l.now }
{
    if l.len() < 2 {
        return Err(Refusal::TableLength(0));
    }
    let v = or_zero(l[1]);
    let end = table_end(l, last);
    check(v, &l[2..end])
}

// Where entry e begins.
fn start_of(t: &[i64], e: usize) -> usize
    requires { EntriesWhole t.now e }
    ensures { StartsAt t.now e result }
{
    let mut p: usize = 0;
    for i in 0..e {
        p += 3 * or_zero(t[p + 1]) + 3;
    }
    p
}

// The checks of all entries, in listing order.
fn check_symbols(n: usize, t: &[i64]) -> Result<(), Refusal>
    ensures { result ≡ symbols_check n t.now n }
{
    for i in 0..n {
        let p = start_of(t, i);
        check_entry(&t[p..], i + 1 == n)?;
    }
    Ok(())
}

// Whether x is -1, or an entry before e.
fn is_listed(x: i64, e: usize) -> bool
    ensures { result ≡ listed_before x e }
{
    if x == -1 {
        return true;
    }
    if x < 0 {
        return false;
    }
    or_zero(x) < e
}

// The first entry that names one not listed before it, or n.
fn first_unlisted(n: usize, t: &[i64]) -> usize
    requires { AreSymbols n t.now }
    ensures { result ≡ first (unlisted t.now) n }
{
    for i in 0..n {
        let p = start_of(t, i);
        if !is_listed(t[p], i) {
            return i;
        }
    }
    n
}

// Whether the subgroup of entry j contains that of entry e.
fn contains_entry(n: usize, t: &[i64], j: usize, e: usize, w: &mut [u16]) -> bool
    requires { ClaimReady n t.now w.old × (j < n) × (e < n) }
    ensures { result ≡ contained (vertices_at t.now e) (table_at n t.now e)
        (vertices_at t.now j) (table_at n t.now j) }
{
    let p = start_of(t, j);
    let q = start_of(t, e);
    let v = or_zero(t[p + 1]);
    let m = or_zero(t[q + 1]);
    contains_accepted(v, &t[p + 2..p + 3 * v + 3], m, &t[q + 2..q + 3 * m + 3], w)
}

// Whether the claim of entry e is true.
fn claim_holds(n: usize, t: &[i64], e: usize, w: &mut [u16]) -> bool
    requires { ClaimReady n t.now w.old × (e < n) }
    ensures { result ≡ claim_holds n t.now e (named_at t.now e) }
{
    let p = start_of(t, e);
    let x = t[p];
    if x < 0 {
        return true;
    }
    contains_entry(n, t, or_zero(x), e, w)
}

// The first entry whose claim is false, or n.
fn first_false(n: usize, t: &[i64], w: &mut [u16]) -> usize
    requires { ClaimReady n t.now w.old }
    ensures { result ≡ first (claim_fails n t.now) n }
{
    for i in 0..n {
        if !claim_holds(n, t, i, w) {
            return i;
        }
    }
    n
}

// 26 for the first claim that is false; the work space is cleared after.
fn check_claims(n: usize, t: &[i64], w: &mut [u16]) -> Result<(), Refusal>
    requires { ClaimReady n t.now w.old }
    ensures value { result ≡ claims_check n t.now }
    ensures w_after { w.new ≡ zeros (length w.old) }
{
    let e = first_false(n, t, w);
    call::workspace::clear(w);
    if e < n {
        return Err(Refusal::FalseClaim(e));
    }
    Ok(())
}

// Whether each of the count entries in t lies in the one that it names: 11 for a 65th entry, the symbols' checks in
// listing order, 25, the work space, 26.
pub fn tower(count: usize, t: &[i64], w: &mut [u16]) -> Result<(), Refusal>
    ensures { Fills (tower_call count t.now w).steps (λ (c : Checked). c) result }
{
    if ENTRIES < count {
        return Err(Refusal::TooShort(ENTRIES));
    }
    check_symbols(count, t)?;
    let e = first_unlisted(count, t);
    if e < count {
        return Err(Refusal::NotListedBefore(e));
    }
    if count == 0 {
        return Ok(());
    }
    call::room(call::workspace::WORK, w.len())?;
    check_claims(count, t, w)
}
