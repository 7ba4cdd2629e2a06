// Texts about one subgroup beside another: two symbols, of the same subgroup or not, and the intersection of two
// (`two_texts`); towers (`tower_text`).
#![tactic(auto)]

mod intersection_text;
mod same_text;
pub mod tower_text;
pub mod two_texts;
