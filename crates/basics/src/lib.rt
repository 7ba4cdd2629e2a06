#![tactic(auto)]

// What all crates share and no field owns: choosing by a test, and counting the numbers that pass one. There is no code
// here: the definitions are in specs/, their laws in proofs/.
