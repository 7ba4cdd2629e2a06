// One subgroup beside another: whether two symbols have the same subgroup (`sameness`), and whether the first one's
// contains the second one's (`inclusion`), both by following one polygon in the other (`following`). specs/Group.antt
// and specs/Contained.antt say what that means in coset tables, specs/Pairs.antt has the pairs of points of two tables,
// which are the tables of the intersection.
#![tactic(auto)]

pub mod following;
pub mod inclusion;
pub mod sameness;
