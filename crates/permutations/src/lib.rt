// A pair of permutations in two lent tables, the passport of a subgroup: the images of its points, and the checks 12 to
// 15. specs/Check.antt says what `check` answers.
#![tactic(auto)]

ghost use Rattle.std.specs.Prelude.{◌≡◌, ◌≤◌, ◌<◌, length};
ghost use Rattle.call.specs.Refusal.{◌or_else◌};
ghost use Rattle.permutations.specs.Pair.{image};
ghost use Rattle.permutations.specs.Check.{check13, check14, check15};
ghost use Rattle.permutations.specs.Check.{twice_moved, thrice_moved, PairVerdict};
ghost use Rattle.permutations.specs.Inner.Reach.{Two};

use call::refusal::Refusal;
use entries::{check_order, check_table};
use reach::check_reached;

mod entries;
mod reach;

// A 32-bit number as an index: there is no `From` for it, since an index may have fewer bits elsewhere.
pub fn wide(x: u32) -> usize
    ensures { result ≡ x }
{
    x as usize
}

// The image of the point x in the table t, and x itself where it is outside the table.
pub fn image(t: &[u32], x: usize) -> usize
    ensures { result ≡ image t.now x }
{
    match t.get(x) {
        Some(y) => wide(*y),
        None => x,
    }
}

// The checks 14 and 15, on tables of points.
fn check_moves(s: &[u32], r: &[u32]) -> Result<(), Refusal>
    requires { Two s.now r.now }
    ensures { result ≡ (check14 twice_moved s.now or_else check14 thrice_moved r.now
        or_else check15 s.now r.now) }
{
    check_order(s, |x| image(s, image(s, x)) != x)?;
    check_order(r, |x| image(r, image(r, image(r, x))) != x)?;
    check_reached(s, r)
}

// The checks 13 to 15, on tables of one length in range.
fn check_entries(s: &[u32], r: &[u32]) -> Result<(), Refusal>
    requires { (1 ≤ length s.now) × (length s.now ≤ 3066) × (length r.now ≡ length s.now) }
    ensures { result ≡ (check13 s.now or_else check13 r.now
        or_else check14 twice_moved s.now or_else check14 thrice_moved r.now
        or_else check15 s.now r.now) }
{
    check_table(s)?;
    check_table(r)?;
    check_moves(s, r)
}

// Whether two tables are permutations that generate a transitive group, S of order two and R of order three: the checks
// 12 to 15, in memory of their own.
pub fn check(s: &[u32], r: &[u32]) -> Result<(), Refusal>
    ensures { PairVerdict s.now r.now result }
{
    if s.is_empty() || 3066 < s.len() || r.len() != s.len() {
        return Err(Refusal::PointCount);
    }
    check_entries(s, r)
}
