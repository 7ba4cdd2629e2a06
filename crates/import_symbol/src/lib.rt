// The symbol of an accepted pair of permutations: its sides, which the crate `import_sides` leaves in the work space,
// and the table written from them (specs/Inner/Writing.antt). specs/Inner/Answer.antt says what `grow` answers and
// leaves.
#![tactic(auto)]

ghost use Rattle.std.specs.Prelude.{◌≡◌, ◌≤◌, negsuc, length};
ghost use Rattle.permutations.specs.Pair.{image, Pair};
ghost use Rattle.import_rule.specs.Fixed.{by_q};
ghost use Rattle.import_rule.specs.Symbol.{one_vertex, ruled_by};
ghost use Rattle.import_sides.specs.Inner.Work.{Large, Ground, WalkLeaves};
ghost use Rattle.import_symbol.specs.Inner.Writing.{large_by, HasRoom};
ghost use Rattle.import_symbol.specs.Answer.{order_by};
ghost use Rattle.import_symbol.specs.Inner.Answer.{ruled_answer, ruled_left};

use crate::write::{write_four, write_table};
use call::refusal::Refusal;
use import_rule::turned;
use import_sides::walk::Outcome;
use permutations::image;

mod write;

// The symbol of one vertex, with the pairings x and -3.
fn grow_small(out: &mut [i64], x: i64) -> Result<usize, Refusal>
    requires { 4 ≤ length out.old }
    ensures value { result ≡ ruled_answer (one_vertex x (negsuc 2)) }
    ensures out_after { out.new ≡ ruled_left (one_vertex x (negsuc 2)) result out.old }
{
    write_four(out, x);
    Ok(1)
}

// The sides of the symbol of a group that is none of the small ones, from a clear work space: by the wide rule, or by
// the rule.
fn sides(s: &[u32], r: &[u32], w: &mut [u16], wide: bool) -> Outcome
    requires { Ground s.now r.now w.old }
    ensures { WalkLeaves (order_by wide) s.now r.now w.new result.stop result.d }
{
    if wide {
        return import_sides::queue::walk(s, r, w);
    }
    import_sides::walk::walk(s, r, w)
}

// The symbol of a group that is none of the small ones.
fn grow_large(
    s: &[u32],
    r: &[u32],
    w: &mut [u16],
    out: &mut [i64],
    wide: bool,
) -> Result<usize, Refusal>
    requires { Pair s.now r.now × (32768 ≤ length w.old) × Large s.now r.now
        × HasRoom (large_by (order_by wide) s.now r.now) (length out.old) }
    ensures value { result ≡ ruled_answer (large_by (order_by wide) s.now r.now) }
    ensures out_after { out.new ≡ ruled_left (large_by (order_by wide) s.now r.now) result
        out.old }
{
    call::workspace::clear(w);
    let t = sides(s, r, w, wide);
    let d = t.d;
    if t.stop {
        return Err(Refusal::EntryTooLarge(d));
    }
    write_table(s, r, w, d, out);
    let v = d - 1;
    Ok(v)
}

// The symbol of the matrices that fix point 0, where Q does.
fn grow_fixed(
    s: &[u32],
    r: &[u32],
    w: &mut [u16],
    out: &mut [i64],
    wide: bool,
) -> Result<usize, Refusal>
    requires { Pair s.now r.now × (32768 ≤ length w.old) × (by_q (image s.now) (image r.now) 0 ≡ 0)
        × HasRoom (ruled_by (order_by wide) s.now r.now) (length out.old) }
    ensures value { result ≡ ruled_answer (ruled_by (order_by wide) s.now r.now) }
    ensures out_after { out.new ≡ ruled_left (ruled_by (order_by wide) s.now r.now) result
        out.old }
{
    let o = image(s, 0);
    if o == 0 {
        return grow_small(out, -2);
    }
    let x = turned(s, r, o);
    if x == o {
        return grow_small(out, -3);
    }
    grow_large(s, r, w, out, wide)
}

// The symbol of the matrices that fix point 0, for an accepted pair and a result space that its table fits, by the wide
// rule or by the rule: the number of its vertices, its table at the front of the result space; or 16 with the side that
// can't be split.
pub fn grow(
    s: &[u32],
    r: &[u32],
    w: &mut [u16],
    out: &mut [i64],
    wide: bool,
) -> Result<usize, Refusal>
    requires { Pair s.now r.now × (32768 ≤ length w.old)
        × HasRoom (ruled_by (order_by wide) s.now r.now) (length out.old) }
    ensures value { result ≡ ruled_answer (ruled_by (order_by wide) s.now r.now) }
    ensures out_after { out.new ≡ ruled_left (ruled_by (order_by wide) s.now r.now) result
        out.old }
{
    let q = turned(s, r, 0);
    if q == 0 {
        return grow_fixed(s, r, w, out, wide);
    }
    grow_large(s, r, w, out, wide)
}
