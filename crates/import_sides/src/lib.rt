// The sides of the symbol of an accepted pair of permutations, in a lent work space: the rule of the crate
// `import_rule`, followed by points. By the rule a stack has the sides from the left (`walk`), by the wide rule a queue
// has them as they come (`queue`). specs/Inner has the tables and what the walks leave.
#![tactic(auto)]

pub mod cell;
pub mod places;
pub mod queue;
pub mod walk;
