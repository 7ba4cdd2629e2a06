// Texts that are answered by a symbol, or by tables of permutations: a pair of permutations (`import_text`,
// `pair_text`), a group by its name (`named_text`), a symbol with partners exchanged (`exchange_text`).
#![tactic(auto)]

pub mod exchange_text;
pub mod import_text;
pub mod named_text;
pub mod pair_text;
