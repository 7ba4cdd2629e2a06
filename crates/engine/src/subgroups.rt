// One symbol's subgroup beside another's: whether it is the same, whether it contains it, their intersection, and
// towers of subgroups.
ghost use Rattle.call.specs.Call.{Call};
ghost use Rattle.containment.specs.Same.{same_call};
ghost use Rattle.containment.specs.Inclusion.{contains_call};
ghost use Rattle.intersections.specs.Answer.{intersection_call};
ghost use Rattle.towers.specs.Answer.{tower_call};

use crate::answers::{of_checked, of_decision, of_filled};

// Whether two tables hold symbols of one subgroup: 1 for yes, 0 for no.
#[unsafe(no_mangle)]
pub extern "C" fn farey_same(
    v: usize,
    t: &[i64],
    m: usize,
    u: &[i64],
    w: &mut [u16],
    place: &mut usize,
) -> u64
    ensures { Call (same_call v t.now m u.now w) result place.new }
{
    let said = of_decision(containment::sameness::same(v, t, m, u, w));
    *place = said.place;
    said.number
}

// Whether the subgroup of the symbol in t contains that of the symbol in u: 1 for yes, 0 for no.
#[unsafe(no_mangle)]
pub extern "C" fn farey_contains(
    v: usize,
    t: &[i64],
    m: usize,
    u: &[i64],
    w: &mut [u16],
    place: &mut usize,
) -> u64
    ensures { Call (contains_call v t.now m u.now w) result place.new }
{
    let said = of_decision(containment::inclusion::contains(v, t, m, u, w));
    *place = said.place;
    said.number
}

// The tables of S, R and T of the intersection of the two subgroups, each from the front of its space.
#[unsafe(no_mangle)]
pub extern "C" fn farey_intersection(
    v: usize,
    t: &[i64],
    m: usize,
    u: &[i64],
    w: &mut [u16],
    s: &mut [u32],
    r: &mut [u32],
    k: &mut [u32],
    place: &mut usize,
) -> u64
    ensures { Call (intersection_call v t.now m u.now w s r k) result place.new }
{
    let said = of_filled(intersections::intersection(v, t, m, u, w, s, r, k));
    *place = said.place;
    said.number
}

// Whether each of the count entries of the tower in t lies in the one that it names.
#[unsafe(no_mangle)]
pub extern "C" fn farey_tower(count: usize, t: &[i64], w: &mut [u16], place: &mut usize) -> u64
    ensures { Call (tower_call count t.now w) result place.new }
{
    let said = of_checked(towers::tower(count, t, w));
    *place = said.place;
    said.number
}
