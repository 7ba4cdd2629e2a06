// The side pairings of an accepted symbol: partners of free sides, and generators.
//
// specs/ says what each call returns and leaves, and has the subgroup H that the generators generate.
#![tactic(auto)]

pub mod admit;
pub mod generator;
pub mod partner;
