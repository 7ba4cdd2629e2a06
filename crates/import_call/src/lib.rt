// The symbol of the subgroup of the matrices that fix point 0, from a pair of permutations in two lent tables, by the
// rule or by the wide rule, and the length of its table alone. specs/Import.antt says what the calls answer and leave.
#![tactic(auto)]

ghost use Rattle.std.specs.Prelude.{◌≡◌, ◌≤◌, length};
ghost use Rattle.call.specs.Space.{zeros};
ghost use Rattle.call.specs.Inner.Fills.{Fills, made_if};
ghost use Rattle.permutations.specs.Check.{Passport};
ghost use Rattle.import_symbol.specs.Answer.{order_by};
ghost use Rattle.import_call.specs.Import.{needed_vertices, needed_length};
ghost use Rattle.import_call.specs.Import.{symbol_into, import_steps, import_length_call};

use call::refusal::Refusal;
use length::needed_length;
use permutations::check;

mod length;

// The symbol of an accepted pair, by the wide rule or by the rule, where the result space has room for its table.
fn grow_within(
    s: &[u32],
    r: &[u32],
    w: &mut [u16],
    out: &mut [i64],
    wide: bool,
) -> Result<usize, Refusal>
    requires { Passport s.now r.now × (32768 ≤ length w.old) }
    ensures { Fills (symbol_into (order_by wide) s.now r.now out)
        (made_if (needed_vertices r.now)) result }
{
    let n = needed_length(r);
    call::room(n, out.len())?;
    import_symbol::grow(s, r, w, out, wide)
}

// The same; the work space is cleared after.
fn import_accepted(
    s: &[u32],
    r: &[u32],
    w: &mut [u16],
    out: &mut [i64],
    wide: bool,
) -> Result<usize, Refusal>
    requires { Passport s.now r.now × (32768 ≤ length w.old) }
    ensures fills { Fills (symbol_into (order_by wide) s.now r.now out)
        (made_if (needed_vertices r.now)) result }
    ensures w_after { w.new ≡ zeros (length w.old) }
{
    let grown = grow_within(s, r, w, out, wide);
    call::workspace::clear(w);
    grown
}

// The symbol of the matrices that fix point 0, from the tables of S and R, by the wide rule or by the rule: the number
// of its vertices, its table at the front of the result space; or 12 to 15, then the work space, then the result space,
// then 16.
pub fn import_by(
    s: &[u32],
    r: &[u32],
    w: &mut [u16],
    out: &mut [i64],
    wide: bool,
) -> Result<usize, Refusal>
    ensures { Fills (import_steps (order_by wide) s.now r.now w out)
        (made_if (needed_vertices r.now)) result }
{
    check(s, r)?;
    call::room(call::workspace::WORK, w.len())?;
    import_accepted(s, r, w, out, wide)
}

// The length of the table of the symbol that an import would make, 3v + 1, for a caller who books the result space:
// 12 to 15, or the length. No symbol is made, and no work space is needed.
pub fn import_length(s: &[u32], r: &[u32]) -> Result<usize, Refusal>
    ensures { Fills (import_length_call s.now r.now).steps
        (made_if (needed_length r.now)) result }
{
    check(s, r)?;
    let n = needed_length(r);
    Ok(n)
}
